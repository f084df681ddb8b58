//! Shapes as text.
ghost use Rattle.std.specs.Prelude.{◌≡◌, ◌++◌, codes, flat_map, OnOk};
ghost use Rattle.std.specs.Fmt.{decimal};
ghost use Rattle.mdl_picture.specs.Svg.{attribute_name, attribute_text, attribute_value, end_tag, escaped, escaped_byte, shape_text, start_tag, tag_name};

use crate::kind::{Kind, kind_name};
use mdl_lines::{push, push_number};
use std::alloc::AllocError;

/// The tag of an element.
#[derive(Clone, Copy)]
pub(crate) enum Tag {
    /// A picture.
    Svg,
    /// What is shown when the pointer rests on a shape.
    Title,
    /// The style of shapes.
    Style,
    /// A pattern with which shapes are filled.
    Pattern,
    /// A marker at the end of a line.
    Marker,
    /// Shapes that belong together.
    G,
    /// A box.
    Rect,
    /// A line.
    Line,
    /// An outline.
    Path,
    /// A text.
    Text,
}

/// An attribute of an element. Numbers are in the units of the picture.
#[derive(Clone, Copy)]
pub(crate) enum Attribute {
    /// The namespace of SVG.
    Namespace,
    /// The width and the height of a picture.
    ViewBox(u64, u64),
    /// The role of a picture: it is shown as one image.
    Role,
    /// The id of the stripes of waits, to which the style refers.
    HatchId,
    /// The id of the end of arrows, to which the style refers.
    HeadId,
    /// The class of a shape, which decides its style.
    Class(Kind),
    /// A pattern is measured in the same units as shapes.
    PatternUnits,
    /// A marker is measured in the same units as shapes.
    MarkerUnits,
    /// The width of a marker.
    MarkerWidth(u64),
    /// The height of a marker.
    MarkerHeight(u64),
    /// The x coordinate of the point of a marker that is at the end of a line.
    RefX(u64),
    /// The y coordinate of the point of a marker that is at the end of a line.
    RefY(u64),
    /// A marker is turned with its line.
    Orient,
    /// The outline of the stripes of a wait.
    Stripes,
    /// The outline of the end of an arrow.
    Tip,
    /// The x coordinate where a shape begins.
    X(u64),
    /// The y coordinate where a shape begins. Of a text it is the baseline.
    Y(u64),
    /// The width of an element.
    Width(u64),
    /// The height of an element.
    Height(u64),
    /// The x coordinate where a line begins.
    X1(u64),
    /// The y coordinate where a line begins.
    Y1(u64),
    /// The x coordinate where a line ends.
    X2(u64),
    /// The y coordinate where a line ends.
    Y2(u64),
}

/// Appends an element that contains no other elements.
#[tactic(auto, unfolding(crate::specs::Svg::shape_text))]
pub(crate) fn push_shape(
    out: &mut Vec<u8>,
    tag: Tag,
    attributes: &[Attribute],
    text: &[u8],
) -> Result<(), AllocError>
    ensures { OnOk result (out.new.items ≡ out.old.items ++ shape_text (record { tag = tag; attributes = attributes.now; text = text.now })) }
{
    push_start(out, tag, attributes)?;
    push_text(out, text)?;
    push_end(out, tag)
}

/// Appends the tag that begins an element.
#[tactic(auto, unfolding(crate::specs::Svg::start_tag))]
pub(crate) fn push_start(
    out: &mut Vec<u8>,
    tag: Tag,
    attributes: &[Attribute],
) -> Result<(), AllocError>
    ensures { OnOk result (out.new.items ≡ out.old.items ++ start_tag tag attributes.now) }
{
    push(out, b"<")?;
    push(out, tag_name(tag))?;
    push_attributes(out, attributes)?;
    push(out, b">")
}

/// Appends the tag that ends an element, and a line feed.
#[tactic(auto, unfolding(crate::specs::Svg::end_tag))]
pub(crate) fn push_end(out: &mut Vec<u8>, tag: Tag) -> Result<(), AllocError>
    ensures { OnOk result (out.new.items ≡ out.old.items ++ end_tag tag) }
{
    push(out, b"</")?;
    push(out, tag_name(tag))?;
    push(out, b">\n")
}

// The name of an element.
fn tag_name(tag: Tag) -> &'static [u8]
    ensures { result.now ≡ tag_name tag }
{
    match tag {
        Tag::Svg => b"svg",
        Tag::Title => b"title",
        Tag::Style => b"style",
        Tag::Pattern => b"pattern",
        Tag::Marker => b"marker",
        Tag::G => b"g",
        Tag::Rect => b"rect",
        Tag::Line => b"line",
        Tag::Path => b"path",
        Tag::Text => b"text",
    }
}

// Appends the attributes of an element.
fn push_attributes(out: &mut Vec<u8>, attributes: &[Attribute]) -> Result<(), AllocError>
    ensures { OnOk result (out.new.items ≡ out.old.items ++ flat_map attribute_text attributes.now) }
{
    for attribute in attributes {
        push_attribute(out, *attribute)?;
    }
    Ok(())
}

// Appends an attribute.
fn push_attribute(out: &mut Vec<u8>, attribute: Attribute) -> Result<(), AllocError>
    ensures { OnOk result (out.new.items ≡ out.old.items ++ attribute_text attribute) }
{
    push(out, b" ")?;
    push(out, attribute_name(attribute))?;
    push(out, b"=\"")?;
    push_value(out, attribute)?;
    push(out, b"\"")
}

// The name of an attribute.
fn attribute_name(attribute: Attribute) -> &'static [u8]
    ensures { result.now ≡ attribute_name attribute }
{
    match attribute {
        Attribute::Namespace => b"xmlns",
        Attribute::ViewBox(_, _) => b"viewBox",
        Attribute::Role => b"role",
        Attribute::HatchId | Attribute::HeadId => b"id",
        Attribute::Class(_) => b"class",
        Attribute::PatternUnits => b"patternUnits",
        Attribute::MarkerUnits => b"markerUnits",
        Attribute::MarkerWidth(_) => b"markerWidth",
        Attribute::MarkerHeight(_) => b"markerHeight",
        Attribute::RefX(_) => b"refX",
        Attribute::RefY(_) => b"refY",
        Attribute::Orient => b"orient",
        Attribute::Stripes | Attribute::Tip => b"d",
        Attribute::X(_) => b"x",
        Attribute::Y(_) => b"y",
        Attribute::Width(_) => b"width",
        Attribute::Height(_) => b"height",
        Attribute::X1(_) => b"x1",
        Attribute::Y1(_) => b"y1",
        Attribute::X2(_) => b"x2",
        Attribute::Y2(_) => b"y2",
    }
}

// Appends the value of an attribute.
fn push_value(out: &mut Vec<u8>, attribute: Attribute) -> Result<(), AllocError>
    ensures { OnOk result (out.new.items ≡ out.old.items ++ attribute_value attribute) }
{
    match attribute {
        Attribute::Namespace => push(out, b"http://www.w3.org/2000/svg"),
        Attribute::ViewBox(width, height) => push_view_box(out, width, height),
        Attribute::Role => push(out, b"img"),
        Attribute::HatchId => push(out, b"hatch"),
        Attribute::HeadId => push(out, b"head"),
        Attribute::Class(kind) => push(out, kind_name(kind)),
        Attribute::PatternUnits | Attribute::MarkerUnits => push(out, b"userSpaceOnUse"),
        Attribute::Orient => push(out, b"auto"),
        Attribute::Stripes => push(out, b"M-2 2l4-4M0 8l8-8M6 10l4-4"),
        Attribute::Tip => push(out, b"M0 0l10 5-10 5z"),
        Attribute::MarkerWidth(number)
        | Attribute::MarkerHeight(number)
        | Attribute::RefX(number)
        | Attribute::RefY(number)
        | Attribute::X(number)
        | Attribute::Y(number)
        | Attribute::Width(number)
        | Attribute::Height(number)
        | Attribute::X1(number)
        | Attribute::Y1(number)
        | Attribute::X2(number)
        | Attribute::Y2(number) => push_number(out, number),
    }
}

// Appends the width and the height of a picture.
fn push_view_box(out: &mut Vec<u8>, width: u64, height: u64) -> Result<(), AllocError>
    ensures { OnOk result (out.new.items ≡ out.old.items ++ (codes "0 0 " ++ decimal width ++ codes " " ++ decimal height)) }
{
    push(out, b"0 0 ")?;
    push_number(out, width)?;
    push(out, b" ")?;
    push_number(out, height)
}

/// Appends a text, escaped so that nothing in it is markup.
pub(crate) fn push_text(out: &mut Vec<u8>, text: &[u8]) -> Result<(), AllocError>
    ensures { OnOk result (out.new.items ≡ out.old.items ++ escaped text.now) }
{
    for byte in text {
        push_byte(out, *byte)?;
    }
    Ok(())
}

// Appends a byte of a text.
fn push_byte(out: &mut Vec<u8>, byte: u8) -> Result<(), AllocError>
    ensures { OnOk result (out.new.items ≡ out.old.items ++ escaped_byte byte) }
{
    match byte {
        b'&' => push(out, b"&amp;"),
        b'<' => push(out, b"&lt;"),
        b'>' => push(out, b"&gt;"),
        b'"' => push(out, b"&quot;"),
        b' '..=b'~' => {
            out.push(byte)?;
            Ok(())
        }
        _ => push(out, b"?"),
    }
}
