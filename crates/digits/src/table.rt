// The number of a word by groups of eight digits: a table has the value of each group.
ghost use Rattle.std.specs.Prelude.{◌≡◌, ◌^◌};
ghost use Rattle.integers.specs.Distance.{Within};
ghost use Rattle.digits.specs.Groups as G;

// The groups of eight digits.
pub const GROUPS: usize = 256;

// The value of each of the 256 groups of eight digits: those of group g are the eight lowest bits of g.
const VALUES: [i32; GROUPS] = [
    0, 1, -2, -1, 4, 5, 2, 3, -8, -7, -10, -9, -4, -3, -6, -5, 16, 17, 14, 15, 20, 21, 18, 19, 8,
    9, 6, 7, 12, 13, 10, 11, -32, -31, -34, -33, -28, -27, -30, -29, -40, -39, -42, -41, -36, -35,
    -38, -37, -16, -15, -18, -17, -12, -11, -14, -13, -24, -23, -26, -25, -20, -19, -22, -21, 64,
    65, 62, 63, 68, 69, 66, 67, 56, 57, 54, 55, 60, 61, 58, 59, 80, 81, 78, 79, 84, 85, 82, 83, 72,
    73, 70, 71, 76, 77, 74, 75, 32, 33, 30, 31, 36, 37, 34, 35, 24, 25, 22, 23, 28, 29, 26, 27, 48,
    49, 46, 47, 52, 53, 50, 51, 40, 41, 38, 39, 44, 45, 42, 43, -128, -127, -130, -129, -124, -123,
    -126, -125, -136, -135, -138, -137, -132, -131, -134, -133, -112, -111, -114, -113, -108, -107,
    -110, -109, -120, -119, -122, -121, -116, -115, -118, -117, -160, -159, -162, -161, -156, -155,
    -158, -157, -168, -167, -170, -169, -164, -163, -166, -165, -144, -143, -146, -145, -140, -139,
    -142, -141, -152, -151, -154, -153, -148, -147, -150, -149, -64, -63, -66, -65, -60, -59, -62,
    -61, -72, -71, -74, -73, -68, -67, -70, -69, -48, -47, -50, -49, -44, -43, -46, -45, -56, -55,
    -58, -57, -52, -51, -54, -53, -96, -95, -98, -97, -92, -91, -94, -93, -104, -103, -106, -105,
    -100, -99, -102, -101, -80, -79, -82, -81, -76, -75, -78, -77, -88, -87, -90, -89, -84, -83,
    -86, -85,
];

// The table, for a caller to lend to many calls: a constant is copied wherever it is named, and the copy costs more than the three look-ups.
pub fn group_values() -> [i32; GROUPS]
    ensures { result ≡ G.group_values }
{
    VALUES
}

// The entry of a word's lowest group.
#[tactic(auto, using(crate::proofs::Coded::entry_value, crate::proofs::Coded::entry_size))]
fn entry(table: &[i32; GROUPS], word: u32) -> i64
    ensures { (result ≡ G.entry table.now word) × Within (2 ^ 31) (G.entry table.now word) }
{
    let value = table[(word % 256) as usize];
    value as i64
}

// The number of a word's three lowest groups: their entries times 1, 256 and 65,536, added.
#[tactic(auto, using(crate::proofs::Coded::grouped), unfolding(crate::specs::Groups::by_groups))]
pub fn by_groups(table: &[i32; GROUPS], word: u32) -> i64
    ensures { result ≡ G.by_groups table.now word }
{
    entry(table, word) + 256 * entry(table, word / 256) + 65536 * entry(table, word / 65536)
}
