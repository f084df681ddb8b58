//! The shapes of a picture.
ghost use Rattle.std.specs.Prelude.{◌≡◌, ◌++◌, [], OnOk};
ghost use Rattle.mdl_picture.specs.Shapes.{line, path, rect, title, words};
ghost use Rattle.mdl_picture.specs.Svg.{shape_text, start_tag};

use crate::kind::Kind;
use crate::svg::{Attribute, Tag, push_shape, push_start};
use std::alloc::AllocError;

/// Appends a title.
pub(crate) fn push_title(out: &mut Vec<u8>, text: &[u8]) -> Result<(), AllocError>
    ensures { OnOk result (out.new.items ≡ out.old.items ++ shape_text (title text.now)) }
{
    push_shape(out, Tag::Title, &[], text)
}

/// Appends a box with this upper left corner and this size.
pub(crate) fn push_rect(
    out: &mut Vec<u8>,
    kind: Kind,
    x: u64,
    y: u64,
    width: u64,
    height: u64,
) -> Result<(), AllocError>
    ensures { OnOk result (out.new.items ≡ out.old.items ++ shape_text (rect kind x y width height)) }
{
    let attributes = [
        Attribute::Class(kind),
        Attribute::X(x),
        Attribute::Y(y),
        Attribute::Width(width),
        Attribute::Height(height),
    ];
    push_shape(out, Tag::Rect, &attributes, b"")
}

/// Appends a line from one point to another.
pub(crate) fn push_line(
    out: &mut Vec<u8>,
    kind: Kind,
    x1: u64,
    y1: u64,
    x2: u64,
    y2: u64,
) -> Result<(), AllocError>
    ensures { OnOk result (out.new.items ≡ out.old.items ++ shape_text (line kind x1 y1 x2 y2)) }
{
    let attributes = [
        Attribute::Class(kind),
        Attribute::X1(x1),
        Attribute::Y1(y1),
        Attribute::X2(x2),
        Attribute::Y2(y2),
    ];
    push_shape(out, Tag::Line, &attributes, b"")
}

/// Appends words whose baseline begins at this point.
pub(crate) fn push_words(
    out: &mut Vec<u8>,
    kind: Kind,
    x: u64,
    y: u64,
    text: &[u8],
) -> Result<(), AllocError>
    ensures { OnOk result (out.new.items ≡ out.old.items ++ shape_text (words kind x y text.now)) }
{
    let attributes = [Attribute::Class(kind), Attribute::X(x), Attribute::Y(y)];
    push_shape(out, Tag::Text, &attributes, text)
}

/// Appends an outline.
pub(crate) fn push_path(out: &mut Vec<u8>, kind: Kind, outline: Attribute) -> Result<(), AllocError>
    ensures { OnOk result (out.new.items ≡ out.old.items ++ shape_text (path kind outline)) }
{
    push_shape(out, Tag::Path, &[Attribute::Class(kind), outline], b"")
}

/// Appends the beginning of a group with a title.
pub(crate) fn push_titled(out: &mut Vec<u8>, text: &[u8]) -> Result<(), AllocError>
    ensures { OnOk result (out.new.items ≡ out.old.items ++ start_tag Tag.G [] ++ shape_text (title text.now)) }
{
    push_start(out, Tag::G, &[])?;
    push_title(out, text)
}
