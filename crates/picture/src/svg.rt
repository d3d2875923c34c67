// The elements of the picture. Lengths are in tenths of a pixel.
ghost use Rattle.std.specs.Prelude.{◌*◌, ◌≤◌};
ghost use Rattle.picture.specs.Drawn.{farthest, lowest, most_characters};

use super::layout::{BAR, CHARACTER, STEP};

// With less for a character nobody could read a label.
const LEAST: usize = 32;

// Where the first line of text in a bar stands below its top.
const TEXT: usize = 140;

// The colours and hatchings. A sender has a light colour that colour-blind people tell apart, with dark text on it; from node 8 on the edge is dashed.
// What is lost is hatched: the rest of a window with lines, an empty window with dots, and what no window covers on a darker ground.
fn style() {
    paper::text(
        b"<title>TTCAN matrix</title>
<style>
text{font:110px Helvetica,Arial,sans-serif;fill:#111}
.h{font-size:150px;font-weight:bold}.t{font-size:95px}.m{text-anchor:middle}.a{text-anchor:end}.w{fill:#fff}
.x,.ref{fill:#333}.gap{fill:url(#back)}.empty{fill:url(#dots)}.rest{fill:url(#lines)}
.gap,.empty,.rest{stroke:#777;stroke-width:6}
.n0{fill:#7ad}.n1{fill:#e86}.n2{fill:#ed8}.n3{fill:#4b9}.n4{fill:#fab}.n5{fill:#bc3}.n6{fill:#9df}.n7{fill:#aa0}
.n8{fill:#cdb}.n9{fill:#fcc}.n10{fill:#eeb}.n11{fill:#bce}.n12{fill:#dbd}.n13{fill:#dca}.n14{fill:#cef}.n15{fill:#ccc}.used{fill:#fff}
.n0,.n1,.n2,.n3,.n4,.n5,.n6,.n7,.used{stroke:#222;stroke-width:8}
.n8,.n9,.n10,.n11,.n12,.n13,.n14,.n15{stroke:#222;stroke-width:8;stroke-dasharray:40 20}
</style>
<defs>
<pattern id='lines' width='60' height='60' patternUnits='userSpaceOnUse'>
<rect width='60' height='60' fill='#fff'/><path d='M-15 15 15 -15 M0 60 60 0 M45 75 75 45' stroke='#888' stroke-width='8'/>
</pattern>
<pattern id='dots' width='60' height='60' patternUnits='userSpaceOnUse'>
<rect width='60' height='60' fill='#fff'/><circle cx='15' cy='15' r='7' fill='#888'/><circle cx='45' cy='45' r='7' fill='#888'/>
</pattern>
<pattern id='back' width='60' height='60' patternUnits='userSpaceOnUse'>
<rect width='60' height='60' fill='#ddd'/><path d='M-15 45 15 75 M0 0 60 60 M45 -15 75 15' stroke='#fff' stroke-width='12'/>
</pattern>
</defs>
<rect width='100%' height='100%' fill='#fff'/>
",
    );
}

// Begins the picture, so wide and so high.
pub fn begin(width: usize, height: usize) {
    paper::text(
        b"<?xml version='1.0' encoding='UTF-8'?>
<svg xmlns='http://www.w3.org/2000/svg' xmlns:xlink='http://www.w3.org/1999/xlink'",
    );
    attribute(b" width=\"", width / 10);
    attribute(b" height=\"", height / 10);
    paper::text_count(b" viewBox=\"0 0 ", width);
    attribute(b" ", height);
    paper::line(b">");
    style();
}

pub fn end() {
    paper::line(b"</svg>");
}

// Writes an attribute, whose name comes with all that stands before its value.
fn attribute(name: &[u8], n: usize) {
    paper::text_count(name, n);
    paper::text(b"\"");
}

// Where something stands, and how large it is. Nothing lies below the legend, which ends far above this bound.
#[derive(Clone, Copy)]
pub struct Place {
    pub x: usize,
    pub y: usize,
    pub width: usize,
    pub height: usize,
    pub ghost x_most: { x ≤ farthest },
    pub ghost y_most: { y ≤ 3 * lowest },
    pub ghost width_most: { width ≤ farthest },
}

// Ends a rectangle behind its kind.
fn end_rect(place: Place) {
    attribute(b"\" x=\"", place.x);
    attribute(b" y=\"", place.y);
    attribute(b" width=\"", place.width);
    attribute(b" height=\"", place.height);
    paper::line(b"/>");
}

// A rectangle of a kind, and one in the colour of a node.
pub fn rect(kind: &[u8], place: Place) {
    paper::text(b"<rect class=\"");
    paper::text(kind);
    end_rect(place);
}

pub fn sender_rect(sender: usize, place: Place) {
    paper::text_count(b"<rect class=\"n", sender);
    end_rect(place);
}

// Ends a copy of something, which stands so many bars lower.
pub fn end_copy(bars: usize)
    requires { bars ≤ 64 }
{
    attribute(b"\" y=\"", STEP * bars);
    paper::line(b"/>");
}

// Begins a text of a kind, without its end mark.
fn begin_any(kind: &[u8], x: usize, y: usize) {
    paper::text(b"<text class=\"");
    paper::text(kind);
    attribute(b"\" x=\"", x);
    attribute(b" y=\"", y);
}

pub fn begin_text(kind: &[u8], x: usize, y: usize) {
    begin_any(kind, x, y);
    paper::text(b">");
}

// Begins a text that rises to the right.
pub fn begin_slanted(x: usize, y: usize) {
    begin_any(b"l", x, y);
    paper::text_count(b" transform=\"rotate(-45 ", x);
    paper::text_count(b" ", y);
    paper::text(b")\">");
}

pub fn end_text() {
    paper::line(b"</text>");
}

// Where the text of a bar stands.
pub fn baseline(top: usize) -> usize
    requires { top ≤ 3 * lowest }
{
    top + TEXT
}

// Whether a label of so many characters can be read where it has this width.
pub fn is_readable(characters: usize, width: usize) -> bool
    requires { characters ≤ most_characters }
{
    LEAST * characters <= width
}

// Begins the label of something, in its middle. One that is too long is squeezed, and one that nobody could read then is not shown.
pub fn begin_label(kind: &[u8], place: Place, characters: usize)
    requires { characters ≤ most_characters }
{
    let width = place.width;
    begin_any(kind, place.x + width / 2, baseline(place.y));
    if !is_readable(characters, width) {
        paper::text(b" display=\"none\"");
    } else if width < CHARACTER * characters {
        attribute(b" textLength=\"", width - width / 10);
        paper::text(b" lengthAdjust=\"spacingAndGlyphs\"");
    }
    paper::text(b">");
}
