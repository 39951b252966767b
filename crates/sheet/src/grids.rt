// A layer as a grid of sheets, rows and columns.
ghost use Rattle.std.specs.Prelude.{◌≡◌, true, ◌^◌, ◌<◌, ◌≤◌};
ghost use Rattle.sheet.specs.Limits.{levels_most};
ghost use Rattle.sheet.specs.Sheet as S;
ghost use Rattle.sheet.specs.Workings.Lines as L;

use crate::shapes::{directions, has_layer};
use crate::{Direction, Grid, Shape};

// The directions of a level, in order.
fn turn(i: usize) -> Direction
    ensures { result ≡ S.turn i }
{
    match i {
        0 => Direction::Across,
        1 => Direction::Down,
        _ => Direction::Between,
    }
}

fn direction_of(shape: Shape, layer: usize) -> Direction
    ensures { result ≡ S.direction shape layer }
{
    if layer == 0 {
        return Direction::Anchor;
    }
    let n = directions(shape);
    turn((layer - 1) % n)
}

fn spacing(shape: Shape, layer: usize) -> usize
    requires { (S.accepted shape ≡ true) × (layer < S.layers shape) }
    ensures { result ≡ S.spacing shape layer }
{
    let levels = shape.levels;
    let n = directions(shape);
    1 << (levels - (layer + n - 1) / n)
}

fn grid_for(layer: usize, direction: Direction, s: usize) -> Grid
    requires { s ≤ 2 ^ levels_most }
    ensures { result ≡ L.grid_for layer direction s }
{
    let anchors = Grid {
        layer,
        direction,
        spacing: s,
        sheet: 0,
        deep: s,
        row: 0,
        down: s,
        col: 0,
        right: s,
    };
    match direction {
        Direction::Anchor => anchors,
        Direction::Across => Grid {
            deep: 2 * s,
            down: 2 * s,
            col: s,
            right: 2 * s,
            ..anchors
        },
        Direction::Down => Grid {
            deep: 2 * s,
            row: s,
            down: 2 * s,
            ..anchors
        },
        Direction::Between => Grid {
            sheet: s,
            deep: 2 * s,
            ..anchors
        },
    }
}

pub(crate) fn grid_here(shape: Shape, layer: usize) -> Grid
    requires { (S.accepted shape ≡ true) × (layer < S.layers shape) }
    ensures { result ≡ L.grid_of shape layer }
{
    let dir = direction_of(shape, layer);
    let s = spacing(shape, layer);
    grid_for(layer, dir, s)
}

// The grid of a layer; that of a sheet without levels where there is no such layer.
pub fn grid_of(shape: Shape, layer: usize) -> Grid
    ensures { result ≡ L.grid_at shape layer }
{
    if has_layer(shape, layer) {
        return grid_here(shape, layer);
    }
    grid_for(0, Direction::Anchor, 1)
}
