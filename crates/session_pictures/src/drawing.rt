//! `Drawing`: a picture in SVG 1.1.

ghost use Rattle.std.specs.Prelude.{◌≡◌, IfOk};
ghost use Rattle.session_pictures.specs.Picture.{picture_in, text_in};

use crate::arrows::push_arrows_group;
use crate::elements::{CELL, LOADED, ROW, column_x, push_group, push_group_end};
use crate::legend::{push_arrows_legend, push_ends, push_kinds, push_loaded};
use crate::picture::Picture;
use crate::rows::push_rows;
use std::alloc::{AllocError, Global};

/// Pixels to the left of the first version.
const LEFT: u128 = 160;
/// Pixels above the first row.
const ABOVE: u128 = 170;
/// Pixels to the right of the last version, which are left free.
const RIGHT: u128 = 260;
/// Pixels below the last row, which are left free.
const BELOW: u128 = 20;

/// A picture, and its text.
#[derive(Drop)]
pub struct Drawing {
    picture: Picture,
    text: String,
}

impl Drawing {
    /// The text in SVG.
    pub fn text(&self) -> &str
        ensures { result.now ≡ text_in self.now }
    {
        &self.text
    }
}

/// Appends the beginning of the picture.
fn push_head(out: &mut String, width: u128, height: u128) -> Result<(), AllocError> {
    write!(
        out,
        "<svg xmlns=\"http://www.w3.org/2000/svg\" width=\"{width}\" height=\"{height}\" viewBox=\"0 0 {width} {height}\" font-family=\"sans-serif\" font-size=\"11\">\n<rect width=\"100%\" height=\"100%\" fill=\"#ffffff\"/>\n"
    )
}

/// Appends the title.
fn push_title(out: &mut String, first: u64, many: u64, all: u64) -> Result<(), AllocError> {
    write!(
        out,
        "<text x=\"20\" y=\"24\" font-weight=\"bold\">Sessions from {first} on: {many} of {all}</text>\n"
    )
}

/// Appends what stands above the grid.
fn push_above(out: &mut String, picture: &Picture) -> Result<(), AllocError> {
    let many = picture.rows.len();
    push_head(
        out,
        LEFT + CELL * (picture.versions.len() as u128) + RIGHT,
        ABOVE + ROW * (many as u128) + BELOW,
    )?;
    push_title(out, picture.first, many as u64, picture.all as u64)?;
    push_kinds(out)?;
    push_ends(out)?;
    push_loaded(out)?;
    push_arrows_legend(out)
}

/// Appends the line at which a version begins, and its number.
fn push_column(
    out: &mut String,
    column: usize,
    height: u128,
    version: u64,
) -> Result<(), AllocError> {
    let x = column_x(column);
    write!(
        out,
        "<g transform=\"translate({x},0)\"><line y1=\"-6\" y2=\"{height}\" stroke=\"#c8c8c8\"/><text transform=\"translate(3,-10) rotate(-60)\">{version}</text></g>\n"
    )
}

/// Appends the marks of the versions that loads made.
fn push_loads(out: &mut String, picture: &Picture) -> Result<(), AllocError> {
    for column in &picture.loads {
        push_group(out, column_x(*column), 0)?;
        out.push_str(LOADED)?;
        push_group_end(out)?;
    }
    Ok(())
}

/// Appends the lines of all versions.
fn push_columns(out: &mut String, picture: &Picture) -> Result<(), AllocError> {
    out.push_str("<text x=\"-8\" y=\"-10\" text-anchor=\"end\">version</text>\n")?;
    let height = ROW * (picture.rows.len() as u128);
    for (column, version) in picture.versions.iter().enumerate() {
        push_column(out, column, height, *version)?;
    }
    Ok(())
}

/// Appends versions, arrows and rows.
fn push_grid(out: &mut String, picture: &Picture) -> Result<(), AllocError> {
    push_group(out, LEFT, ABOVE)?;
    push_columns(out, picture)?;
    push_loads(out, picture)?;
    push_arrows_group(out, picture)?;
    push_rows(out, picture)?;
    push_group_end(out)
}

/// The text of a picture.
fn text_of(alloc: Global, picture: &Picture) -> Result<String, AllocError> {
    let mut out = String::new(alloc);
    push_above(&mut out, picture)?;
    push_grid(&mut out, picture)?;
    out.push_str("</svg>\n")?;
    Ok(out)
}

/// Draws a picture.
pub fn draw(alloc: Global, picture: Picture) -> Result<Drawing, AllocError>
    ensures { IfOk result (λ drawing. picture_in drawing ≡ picture) }
{
    match text_of(alloc, &picture) {
        Ok(text) => Ok(Drawing { picture, text }),
        Err(AllocError) => {
            drop(picture);
            Err(AllocError)
        }
    }
}
