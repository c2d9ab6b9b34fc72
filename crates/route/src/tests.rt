// Samples predicted from where they were located, and by way of the tile, with the values that the standard's formulas give.
use crate::component::{Chroma, Luma};
use crate::{locate_window, predict_from};
use place::area::{Aim, Area};

const WIDTH: usize = 21;

const HEIGHT: usize = 6;

const SIZE: usize = WIDTH * HEIGHT;

// Rows of a step: 0 in the first three columns, 100 in all behind them.
fn step() -> [u8; SIZE] {
    let mut rows = [0u8; SIZE];
    for (i, sample) in rows.iter_mut().enumerate() {
        if 3 <= i % WIDTH {
            *sample = 100;
        }
    }
    rows
}

fn area_of(rows: &[u8; SIZE]) -> Area {
    Area {
        samples: rows,
        at: 0,
        stride: WIDTH,
        w: WIDTH,
        h: HEIGHT,
    }
}

// In place and by way of the tile. Luma: in the middle of the step the taps lie on three samples of 0 and three of 100, (100 · (20 - 5 + 1) + 16) / 32. Chroma: it takes the full phase too, and gives the sample itself. Places are kept 2^29 and 2^28 up.
#[test]
fn predicts_from_a_spot(rt: HostRuntime) {
    let rows = step();
    let area = area_of(&rows);
    let half = Aim::<4> {
        x: 536870912 + 2,
        y: 536870912 + 2,
        fx: 2,
        fy: 0,
        w: 1,
        h: 1,
    };
    let located = locate_window::<Luma, 4, 441>(area, half);
    assert_eq!(rt; located, Some(0));
    for spot in [located, None] {
        let mut out = [7u8; 1];
        predict_from::<Luma, 4, 441>(spot, area, half, &mut out);
        assert_eq!(rt; out[0], 50);
    }
    let full = Aim::<8> {
        x: 268435456 + 3,
        y: 268435456,
        fx: 0,
        fy: 0,
        w: 1,
        h: 1,
    };
    let located = locate_window::<Chroma, 8, 81>(area, full);
    assert_eq!(rt; located, Some(3));
    for spot in [located, None] {
        let mut out = [7u8; 1];
        predict_from::<Chroma, 8, 81>(spot, area, full, &mut out);
        assert_eq!(rt; out[0], 100);
    }
}
