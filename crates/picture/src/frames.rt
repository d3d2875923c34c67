// The sends of the messages, each in its window: the frame with its label, and the rest of the window.
ghost use Rattle.std.specs.Prelude.{◌<◌, ◌≤◌};
ghost use Rattle.rules.specs.Problem.{columns};
ghost use Rattle.rules.specs.Parts.{Member};

use super::svg::Place;
use super::{Picture, layout, svg};
use rules::words;
use sheet::Kind;

// ---- what is told of a message under the pointer

// The nodes of a receiver mask.
fn receivers(text: &[u8], mask: u32) {
    if mask == 0 {
        paper::text(b"no node");
    } else {
        names::nodes(text, mask, b"node ", b", ");
    }
}

// In which cycles it is sent.
fn turns(r: usize, repeat: usize, rows: usize) {
    if repeat == 1 {
        paper::line(b" of every cycle");
        return;
    }
    paper::text_count(b" of cycle ", r);
    if repeat < rows {
        paper::text_count(b" and every ", repeat);
        paper::text(b" cycles");
    }
    paper::end_line();
}

// Its identifier, name, sender and receivers.
fn ends(picture: &Picture, j: usize)
    requires { Member picture.now j }
{
    let p = picture.p;
    let text = picture.text;
    paper::right_hex(words::identifier_of(p, j), 0);
    names::bracketed(text, Kind::Message, j);
    paper::end_line();
    names::called(text, Kind::Node, words::sender_of(p, j), b"node ");
    paper::text(b" to ");
    receivers(text, words::receivers_of(p, j) as u32);
    paper::end_line();
}

// When it is sent, and what its deadline leaves.
fn timing(picture: &Picture, j: usize, c: usize, r: usize)
    requires { Member picture.now j × (c < columns picture.now) }
{
    let p = picture.p;
    paper::text_count(b"at ", words::start_of(p, c));
    turns(r, words::repeat_of(p, j), words::rows_of(p));
    let margin = margins::margin_of(p, picture.w, j);
    paper::text_count(b"frame ", margin.frame);
    paper::text_count(b", wait ", margin.wait);
    paper::text_count(b", slack ", margin.slack);
    paper::text_count(b" of deadline ", words::deadline_of(p, j));
}

// ---- what is drawn

// The name of message j in its frame, or its identifier where there is none or nobody could read it.
fn label(picture: &Picture, j: usize, place: Place)
    requires { Member picture.now j }
{
    match layout::name_length(picture.text, Kind::Message, j) {
        Some(characters) if svg::is_readable(characters, place.width) => {
            svg::begin_label(b"m", place, characters);
            names::put(picture.text, Kind::Message, j);
        }
        _ => {
            svg::begin_label(b"m", place, layout::IDENTIFIER);
            paper::right_hex(words::identifier_of(picture.p, j), 0);
        }
    }
    svg::end_text();
}

// The other sends of message j as copies of the first: in each `repeat` rows behind row r.
fn copies(j: usize, r: usize, repeat: usize, rows: usize)
    requires { (1 ≤ repeat) × (repeat ≤ 64) × (rows ≤ 64) × (r < 4294967296) }
{
    for behind in (repeat..rows.saturating_sub(r)).step_by(repeat) {
        paper::text_count(b"<use xlink:href=\"#m", j);
        svg::end_copy(behind);
    }
}

// The sends of message j, in column c and base row r: the window, on it the frame with its label, and copies of both.
fn sends(picture: &Picture, j: usize, c: usize, r: usize)
    requires { Member picture.now j × (c < columns picture.now) × (r < 4294967296) }
{
    let p = picture.p;
    let start = words::start_of(p, c);
    let frame = picture.scale.part(r, start, words::frame_of(p, j));
    paper::text_count(b"<g id=\"m", j);
    paper::line(b"\">");
    svg::rect(b"rest", picture.scale.part(r, start, words::width_of(p, c)));
    svg::sender_rect(words::sender_of(p, j), frame);
    label(picture, j, frame);
    paper::line(b"</g>");
    copies(j, r, words::repeat_of(p, j), words::rows_of(p));
}

// Message j: what is told of it, and its sends. A proposal that is cut short or out of range has none.
fn message(picture: &Picture, j: usize)
    requires { Member picture.now j }
{
    let w = picture.w;
    if !words::gives(w, j) {
        return;
    }
    let c = words::column_of(w, j);
    let r = words::row_of(w, j);
    if words::columns_of(picture.p) <= c {
        return;
    }
    paper::text(b"<g><title>");
    ends(picture, j);
    timing(picture, j, c, r);
    paper::line(b"</title>");
    sends(picture, j, c, r);
    paper::line(b"</g>");
}

// All messages.
pub fn show(picture: &Picture) {
    for j in 0..words::messages_of(picture.p) {
        message(picture, j);
    }
}
