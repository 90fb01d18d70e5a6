//! The elements of a picture in SVG. Places are in pixels, from its left and from its upper edge.
use solo_base::ProcNo;
use std::alloc::AllocError;

#[derive(Clone, Copy)]
pub struct Point {
    pub x: u64,
    pub y: u64,
}

/// What a mark on the line of a process says.
#[derive(Clone, Copy)]
pub enum Mark {
    /// An action that is done.
    Done,
    /// A call that has to wait.
    Waits,
    /// A card was read, a line printed or a file loaded.
    Device,
    /// The process ended.
    Ends,
}

/// A mark of a process.
pub fn write_mark(
    svg: &mut String,
    mark: Mark,
    process: ProcNo,
    at: Point,
) -> Result<(), AllocError> {
    let name = name_of(mark);
    let Point { x, y } = at;
    writeln!(
        svg,
        "<use href=\"#{name}\" class=\"p{process}\" x=\"{x}\" y=\"{y}\"/>"
    )
}

/// The name under which the frame defines a mark.
fn name_of(mark: Mark) -> &'static str {
    match mark {
        Mark::Done => "done",
        Mark::Waits => "waits",
        Mark::Device => "device",
        Mark::Ends => "ends",
    }
}

/// A bar in the colour of a process, of which this is the left end and the middle.
pub fn write_bar(
    svg: &mut String,
    class: &str,
    process: ProcNo,
    at: Point,
    width: u64,
) -> Result<(), AllocError> {
    let Point { x, y } = at;
    write!(
        svg,
        "<rect class=\"{class} p{process}\" transform=\"translate({x} {y})\" "
    )?;
    writeln!(svg, "y=\"-10\" width=\"{width}\" height=\"20\"/>")
}

/// A line from one place to another.
pub fn write_line(svg: &mut String, class: &str, from: Point, to: Point) -> Result<(), AllocError> {
    let Point { x, y } = from;
    let (end, lower) = (to.x, to.y);
    writeln!(
        svg,
        "<line class=\"{class}\" x1=\"{x}\" y1=\"{y}\" x2=\"{end}\" y2=\"{lower}\"/>"
    )
}

/// Plain words, from this place on.
pub fn write_text(svg: &mut String, class: &str, at: Point, words: &str) -> Result<(), AllocError> {
    let Point { x, y } = at;
    write!(svg, "<text class=\"{class}\" x=\"{x}\" y=\"{y}\">")?;
    escape(svg, words)?;
    svg.push_str("</text>\n")
}

/// Words that rise to the right, from above a mark on.
pub fn write_label(svg: &mut String, at: Point, words: &str) -> Result<(), AllocError> {
    let Point { x, y } = at;
    write!(
        svg,
        "<text class=\"label\" transform=\"translate({x} {y}) rotate(-55)\" x=\"14\" y=\"-1\">"
    )?;
    escape(svg, words)?;
    svg.push_str("</text>\n")
}

/// The words, with what SVG keeps for itself written by its names.
fn escape(svg: &mut String, words: &str) -> Result<(), AllocError> {
    for letter in words.chars() {
        push_escaped(svg, letter)?;
    }
    Ok(())
}

fn push_escaped(svg: &mut String, letter: char) -> Result<(), AllocError> {
    match letter {
        '&' => svg.push_str("&amp;"),
        '<' => svg.push_str("&lt;"),
        '>' => svg.push_str("&gt;"),
        _ => svg.push(letter),
    }
}
