// What is drawn in a panel: the curve of a shape with its marks, over an older one where they differ.
#![tactic(auto)]

ghost use Rattle.std.specs.Prelude.{◌≡◌, true};
ghost use Rattle.text.specs.Text.{Puts};
ghost use Rattle.shape_strip.specs.Forward.{goes_forward};
ghost use Rattle.panel_curves.specs.Curves.{marked_text, drawn_text, older_text};

use builders::of_shape;
use captions::NO_CAPTION;
use generator::Shape;
use marks::Marks;
use panel_captions::put_captions;
use panel_line::SAMPLES;
use panel_marks::put_marks;
use shape_strip::fill_once;
use text::Writer;

// What is marked on a curve: its captions, if it has any, or its marks.
#[tactic(auto, unfolding(crate::specs::Curves::marked_text))]
fn put_marked(out: &mut Writer, marks: Marks, captions: &[u8; SAMPLES])
    ensures { Puts out.old (marked_text marks captions.now) out.new }
{
    if captions[0] == NO_CAPTION {
        put_marks(out, marks)
    } else {
        put_captions(out, captions)
    }
}

// What is drawn of a shape.
pub fn put_drawn(out: &mut Writer, shape: Shape)
    requires { goes_forward shape ≡ true }
    ensures { Puts out.old (drawn_text shape) out.new }
{
    let mut heights = [0.0f32; SAMPLES];
    fill_once(shape, &mut heights);
    let g = of_shape(shape);
    let mut captions = [0u8; SAMPLES];
    let _ = captions::captions(g, &mut captions);
    panel_labels::put_subtitle(out, g.scale(), g.anchored());
    panel_frame::put_rest(out, g.rest());
    put_marked(out, g.marks(), &captions);
    panel_line::put_curve(out, &heights);
}

// The curve of an older program's shape, where it differs.
pub fn put_older(out: &mut Writer, older: Shape, shape: Shape)
    requires { (goes_forward older ≡ true) × (goes_forward shape ≡ true) }
    ensures { Puts out.old (older_text older shape) out.new }
{
    let mut old = [0.0f32; SAMPLES];
    let mut new = [0.0f32; SAMPLES];
    fill_once(older, &mut old);
    fill_once(shape, &mut new);
    older_curve::put_older_curve(out, &old, &new);
}
