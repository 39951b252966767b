// The rules of a layer: how it carries what stands before it, and what it adds of its own.
ghost use Rattle.std.specs.Prelude.{◌≡◌, ◌≤◌};
ghost use Rattle.sheet.specs.Sheet as S;
ghost use Rattle.header.specs.Header as Hd;
ghost use Rattle.figure.specs.Figure as F;
ghost use Rattle.figure.specs.Workings as W;

use crate::Rule;
use header::{Header, MOST_PLACES};
use sheet::{Curve, Direction, MOST_STEP, Shape};

// The largest number that the cubic curve carries to one that fits.
const MOST_CARRIED: u64 = u64::MAX / 5 * 4;

// How many points stand on a line of this direction; an anchor looks along none.
fn along(shape: Shape, direction: Direction) -> usize
    ensures { result ≡ S.along shape direction }
{
    match direction {
        Direction::Anchor => 0,
        Direction::Across => shape.cols,
        Direction::Down => shape.rows,
        Direction::Between => shape.depth,
    }
}

// The rule by which a layer carries: the linear curve's, so that M stays M, where it is narrow (every empty one is) or not there, and otherwise the card's.
pub fn rule_of(header: Header, layer: usize) -> Rule
    ensures { result ≡ W.rule_of header layer }
{
    let shape = header.shape;
    let g = sheet::grid_of(shape, layer);
    let direction = g.direction;
    if along(shape, direction) <= 6 * g.spacing {
        return Rule {
            curve: Curve::Linear,
        };
    }
    let curve = header.curve;
    Rule { curve }
}

// What M is carried to by a rule: by the cubic curve's 5M/4 rounded up, that is, M and a quarter of it rounded up. Where that does not fit, the largest number.
pub fn carried(rule: Rule, m: u64) -> u64
    ensures { result ≡ W.carried_in rule m }
{
    let curve = rule.curve;
    match curve {
        Curve::Linear => m,
        Curve::Cubic => {
            if MOST_CARRIED < m {
                return u64::MAX;
            }
            m + (m + 3) / 4
        }
    }
}

// What d missing planes lose: the card's number for them, among those that begin at `first`; the closed loss where the card has none.
fn loss_from(losses: &[u32], first: usize, d: u64) -> u64
    requires { d ≤ Hd.places_most }
    ensures { result ≡ F.loss_from losses.now first d }
{
    if d == 0 {
        return 0;
    }
    match losses.get(first.saturating_add(d as usize - 1)) {
        Some(loss) => u64::from(*loss),
        None => digits::loss(d),
    }
}

// What a layer of `count` planes adds of its own where n of them are loaded, loss × w; its numbers begin at `first`. Nothing can be said of a step or a count of planes that no card has, or of more planes than the layer has: the largest number.
pub fn charge(losses: &[u32], first: usize, count: u64, n: u64, step: u64) -> u64
    ensures { result ≡ W.charge_in losses.now first count n step }
{
    if MOST_STEP < step {
        return u64::MAX;
    }
    if MOST_PLACES < count {
        return u64::MAX;
    }
    if count < n {
        return u64::MAX;
    }
    loss_from(losses, first, count - n) * layers::width_of(step)
}
