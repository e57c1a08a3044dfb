//! Rows as a picture in SVG.
ghost use Rattle.std.specs.Prelude.{◌≡◌, ◌++◌, IfOk, OnOk, string_bytes};
ghost use Rattle.pana_history.specs.Svg.{group_head, height_of, line_path, line_paths, row_class, row_group, row_groups, row_width, sign_shape, sign_shapes, style, svg_head, svg_text, text_element, text_x, width_of, xml_char, xml_text};

use crate::mark::{Mark, Sign};
use crate::row::Row;
use pana_terminal::shown;
use std::alloc::{AllocError, Global};

/// How far the lanes stand from each other, and the first from the left.
const LANE: u128 = 16;

/// How far the rows stand from each other.
const ROW: u128 = 20;

/// The colours, in the light and in the dark, and the ground.
fn style() -> &'static str
    ensures { result.now ≡ style }
{
    "<style>rect{fill:#ffffff}text{font:14px monospace;white-space:pre;fill:#1f2328}path{fill:none;stroke:#59636e;stroke-width:2}circle{fill:#0969da}.n{fill:none;stroke:#59636e;stroke-width:2}.x{stroke:#d1242f}.w text{fill:#59636e;text-decoration:line-through}@media (prefers-color-scheme:dark){rect{fill:#0d1117}text{fill:#f0f6fc}path,.n{stroke:#9198a1}circle{fill:#4493f8}.n{fill:none}.x{stroke:#f85149}.w text{fill:#9198a1}}</style>\n<rect width=\"100%\" height=\"100%\"/>\n"
}

/// Appends a character as it stands between tags.
fn push_char(text: &mut String, c: char) -> Result<(), AllocError>
    ensures { OnOk result (string_bytes text.new ≡ string_bytes text.old ++ xml_char c) }
{
    match c {
        '&' => text.push_str("&amp;"),
        '<' => text.push_str("&lt;"),
        '>' => text.push_str("&gt;"),
        '"' => text.push_str("&quot;"),
        '\u{FFFE}' | '\u{FFFF}' => text.push('\u{FFFD}'),
        _ => text.push(c),
    }
}

/// A text between tags.
fn xml_text(alloc: Global, text: &str) -> Result<String, AllocError>
    ensures { IfOk result (λ out. string_bytes out ≡ xml_text text.now) }
{
    let safe = shown(alloc, text)?;
    let mut out = String::new(alloc);
    for c in safe.as_str().chars() {
        push_char(&mut out, c)?;
    }
    Ok(out)
}

/// A lane's line.
fn line_path(alloc: Global, x: u128, mark: Mark) -> Result<String, AllocError>
    ensures { IfOk result (λ text. string_bytes text ≡ line_path x mark) }
{
    match (mark.lives_before, mark.lives_after) {
        (true, true) => format!(in alloc; "M{x} 0v20"),
        (true, false) => format!(in alloc; "M{x} 0v10"),
        (false, true) => format!(in alloc; "M{x} 10v10"),
        (false, false) => Ok(String::new(alloc)),
    }
}

/// The shape of a sign.
fn sign_shape(alloc: Global, x: u128, sign: Sign) -> Result<String, AllocError>
    ensures { IfOk result (λ text. string_bytes text ≡ sign_shape sign x) }
{
    match sign {
        Sign::Plain => Ok(String::new(alloc)),
        Sign::Named => format!(in alloc; "<circle class=\"n\" cx=\"{x}\" cy=\"10\" r=\"4\"/>"),
        Sign::Touched => format!(in alloc; "<circle cx=\"{x}\" cy=\"10\" r=\"5\"/>"),
        Sign::Struck => {
            format!(in alloc; "<path class=\"x\" d=\"M{x} 10m-5-5l10 10m0-10l-10 10\"/>")
        }
    }
}

/// The lines of a row's marks.
fn line_paths(alloc: Global, marks: &[Mark]) -> Result<String, AllocError>
    ensures { IfOk result (λ text. string_bytes text ≡ line_paths 16 marks.now) }
{
    let mut text = String::new(alloc);
    let mut x = LANE;
    for mark in marks {
        text.push_str(line_path(alloc, x, *mark)?.as_str())?;
        x += LANE;
    }
    Ok(text)
}

/// The shapes of a row's marks.
fn sign_shapes(alloc: Global, marks: &[Mark]) -> Result<String, AllocError>
    ensures { IfOk result (λ text. string_bytes text ≡ sign_shapes 16 marks.now) }
{
    let mut text = String::new(alloc);
    let mut x = LANE;
    for mark in marks {
        text.push_str(sign_shape(alloc, x, mark.sign)?.as_str())?;
        x += LANE;
    }
    Ok(text)
}

/// The attribute of a row that is struck.
fn row_class(is_struck: bool) -> &'static str
    ensures { result.now ≡ row_class is_struck }
{
    if is_struck { " class=\"w\"" } else { "" }
}

/// How far the text of a row stands from the left.
fn text_x(row: &Row) -> u128
    ensures { result ≡ text_x row.now }
{
    LANE * row.marks().len() as u128 + 20
}

/// How the group of a row begins, at this distance from the top.
fn group_head(alloc: Global, y: u128, is_struck: bool) -> Result<String, AllocError>
    ensures { IfOk result (λ text. string_bytes text ≡ group_head y is_struck) }
{
    let class = row_class(is_struck);
    format!(in alloc; "<g{class} transform=\"translate(0 {y})\">")
}

/// A row's text, at this distance from the left.
fn text_element(alloc: Global, x: u128, text: &str) -> Result<String, AllocError>
    ensures { IfOk result (λ element. string_bytes element ≡ text_element x text.now) }
{
    let words = xml_text(alloc, text)?;
    let words = words.as_str();
    format!(in alloc; "<text x=\"{x}\" y=\"14\">{words}</text>")
}

/// A row at this distance from the top.
fn row_group(alloc: Global, y: u128, row: &Row) -> Result<String, AllocError>
    ensures { IfOk result (λ text. string_bytes text ≡ row_group y row.now) }
{
    let mut text = group_head(alloc, y, row.is_struck())?;
    text.push_str("<path d=\"")?;
    text.push_str(line_paths(alloc, row.marks())?.as_str())?;
    text.push_str("\"/>")?;
    text.push_str(sign_shapes(alloc, row.marks())?.as_str())?;
    text.push_str(text_element(alloc, text_x(row), row.text())?.as_str())?;
    text.push_str("</g>\n")?;
    Ok(text)
}

/// The rows, each below the one before it.
fn row_groups(alloc: Global, rows: &[Row]) -> Result<String, AllocError>
    ensures { IfOk result (λ text. string_bytes text ≡ row_groups 0 rows.now) }
{
    let mut text = String::new(alloc);
    let mut y = 0;
    for row in rows {
        text.push_str(row_group(alloc, y, row)?.as_str())?;
        y += ROW;
    }
    Ok(text)
}

/// How wide a row is at most.
fn row_width(row: &Row) -> u128
    ensures { result ≡ row_width row.now }
{
    LANE * row.marks().len() as u128 + 9 * row.text().len() as u128 + 40
}

/// How wide the widest row is at most.
fn width_of(rows: &[Row]) -> u128
    ensures { result ≡ width_of rows.now }
{
    let mut width = 0;
    for row in rows {
        width = row_width(row).max(width);
    }
    width
}

/// How high all rows are.
fn height_of(rows: &[Row]) -> u128
    ensures { result ≡ height_of rows.now }
{
    ROW * rows.len() as u128
}

/// How the picture begins, so wide and so high.
fn svg_head(alloc: Global, width: u128, height: u128) -> Result<String, AllocError>
    ensures { IfOk result (λ text. string_bytes text ≡ svg_head width height) }
{
    format!(in alloc;
        "<svg xmlns=\"http://www.w3.org/2000/svg\" width=\"{width}\" height=\"{height}\">\n"
    )
}

/// The rows as a picture in SVG, which can be read on light and on dark ground.
pub(crate) fn svg_text(alloc: Global, rows: &[Row]) -> Result<String, AllocError>
    ensures { IfOk result (λ text. string_bytes text ≡ svg_text rows.now) }
{
    let mut text = svg_head(alloc, width_of(rows), height_of(rows))?;
    text.push_str(style())?;
    text.push_str(row_groups(alloc, rows)?.as_str())?;
    text.push_str("</svg>\n")?;
    Ok(text)
}
