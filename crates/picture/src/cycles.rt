// The bars of the basic cycles as they are without messages: the reference message, the windows, and what no window covers.
ghost use Rattle.std.specs.Prelude.{◌<◌};
ghost use Rattle.rules.specs.Problem.{columns};

use super::layout::Scale;
use super::{Picture, layout, svg};
use rules::words;
use sheet::Kind;

// The reference message, with its identifier.
fn reference(picture: &Picture) {
    let p = picture.p;
    let time = words::ref_len_of(p);
    let place = picture.scale.part(0, 0, time);
    paper::text_hex(b"<g><title>reference message ", words::ref_id_of(p));
    paper::text_count(b": from 0 to ", time);
    paper::line(b" of every cycle</title>");
    svg::rect(b"ref", place);
    svg::begin_label(b"m w", place, layout::IDENTIFIER);
    paper::right_hex(words::ref_id_of(p), 0);
    svg::end_text();
    paper::line(b"</g>");
}

// A window, empty as yet.
fn window(picture: &Picture, c: usize)
    requires { c < columns picture.now }
{
    let start = words::start_of(picture.p, c);
    let time = words::width_of(picture.p, c);
    paper::text_count(b"<g><title>window ", c);
    names::bracketed(picture.text, Kind::Column, c);
    paper::text_count(b": from ", start);
    paper::text_count(b" to ", start + time);
    paper::line(b", empty</title>");
    svg::rect(b"empty", picture.scale.part(0, start, time));
    paper::line(b"</g>");
}

// The first bar: its ground, which is the whole cycle, and on it the reference message and all windows.
fn first(picture: &Picture) {
    paper::line(b"<g id=\"cycle\">");
    svg::rect(b"gap", picture.scale.part(0, 0, words::cycle_of(picture.p)));
    reference(picture);
    for c in 0..words::columns_of(picture.p) {
        window(picture, c);
    }
    paper::line(b"</g>");
}

// A bar's number.
fn number(s: Scale, r: usize)
    requires { r < 64 }
{
    svg::begin_text(b"a", layout::BEFORE, svg::baseline(s.bar_top(r)));
    paper::text_count(b"cycle ", r);
    svg::end_text();
}

// The first bar, the others as its copies, and their numbers.
pub fn show(picture: &Picture) {
    first(picture);
    for r in 0..words::rows_of(picture.p) {
        number(picture.scale, r);
        if 0 < r {
            paper::text(b"<use xlink:href=\"#cycle");
            svg::end_copy(r);
        }
    }
}
