// Planes with margins: their geometry, and how the margins are filled.
#![tactic(auto)]

ghost use Rattle.std.specs.Prelude.{◌≡◌, ◌⊎◌, ◌+◌, ◌*◌, ◌≤◌, length, get_or};
ghost use Rattle.terms.specs.Refusal.{answered};
ghost use Rattle.grid.specs.Block.{by_rows};
ghost use Rattle.grid.specs.Run.{put};
ghost use Rattle.place.specs.Refusal.{padded_refusal};
ghost use Rattle.place.specs.Outcome.{after};
ghost use Rattle.margins.specs.Margin.{from_col, expanded};

use place::limits;
pub use terms::plane::Geometry;
use terms::refusal::Refusal;

// n bytes copied to a place apart from them. A loop, since copy_within, which asks for each row in which direction to copy, took an eighth longer at 64 by 64.
fn copy_apart(buf: &mut [u8], from: usize, to: usize, n: usize)
    requires { (from + n ≤ length buf.old) × (to + n ≤ length buf.old) × ((from + n ≤ to) ⊎ (to + n ≤ from)) }
    ensures { buf.new ≡ put buf.old to n (λ i. get_or buf.old (from + i) 0) }
{
    for i in 0..n {
        buf[to + i] = buf[from + i];
    }
}

// The left and right margins of the picture row that starts at o.
fn fill_sides(buf: &mut [u8], o: usize, g: Geometry)
    requires { (1 ≤ g.pw) × (g.pw + 2 * g.pad ≤ g.stride) × (o + g.stride ≤ length buf.old) }
    ensures { buf.new ≡ put buf.old o g.stride (λ x. get_or buf.old (o + from_col g.pad g.pw x) 0) }
{
    let first = o + g.pad;
    let a = buf[first];
    let b = buf[first + g.pw - 1];
    grid::fill_run(buf, o, g.pad, a);
    grid::fill_run(buf, first + g.pw, g.pad, b);
}

// The margins of the picture's rows, of which the first starts at o. Rows go by index: of chunks that were written to, a proof knows the length alone.
fn fill_rows(buf: &mut [u8], o: usize, g: Geometry)
    requires { (1 ≤ g.pw) × (g.pw + 2 * g.pad ≤ g.stride) × (o + g.ph * g.stride ≤ length buf.old) }
    ensures { buf.new ≡ put buf.old o (g.ph * g.stride) (by_rows g.stride (λ x y. get_or buf.old (o + y * g.stride + from_col g.pad g.pw x) 0)) }
{
    for y in 0..g.ph {
        fill_sides(buf, o + y * g.stride, g);
    }
}

// The row at `from`, copied to n rows from `to` on.
fn copy_rows(buf: &mut [u8], from: usize, to: usize, stride: usize, n: usize)
    requires { (from + stride ≤ length buf.old) × (to + n * stride ≤ length buf.old) × ((from + stride ≤ to) ⊎ (to + n * stride ≤ from)) }
    ensures { buf.new ≡ put buf.old to (n * stride) (by_rows stride (λ x y. get_or buf.old (from + x) 0)) }
{
    for r in 0..n {
        copy_apart(buf, from, to + r * stride, stride);
    }
}

// First the margins of the picture's rows, then whole rows above and below.
fn fill_margins(buf: &mut [u8], g: Geometry)
    requires { 0 ≡ padded_refusal (length buf.old) g.pw g.ph g.pad g.stride }
    ensures { buf.new ≡ expanded buf.old g.stride g.pad g.pw g.ph }
{
    let first = g.pad * g.stride;
    let last = (g.pad + g.ph - 1) * g.stride;
    let past = (g.pad + g.ph) * g.stride;
    fill_rows(buf, first, g);
    copy_rows(buf, first, 0, g.stride, g.pad);
    copy_rows(buf, last, past, g.stride, g.pad);
}

// Fills the margins from the picture.
pub fn expand_plane(buf: &mut [u8], g: Geometry) -> Result<(), Refusal>
    ensures { (answered result ≡ padded_refusal (length buf.old) g.pw g.ph g.pad g.stride)
        × (buf.new ≡ after (answered result) buf.old (expanded buf.old g.stride g.pad g.pw g.ph)) }
{
    limits::check_padded(buf.len(), g)?;
    fill_margins(buf, g);
    Ok(())
}
