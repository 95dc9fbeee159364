//! The lines that edit a view, and those of frames.

ghost use Rattle.std.specs.Prelude.{◌≡◌, ◌<◌, ◌+◌, ◌^◌};
ghost use Rattle.load_maker.specs.Load.{Load, color_line, margins_line, size_line, visibility_name, visible_line, weight_line, with_color, with_edit, with_frame, with_margins, with_size, with_step, with_visibility, with_weight};
ghost use Rattle.load_maker.specs.Made.{Makes, Puts};

use crate::making::Maker;

/// The name of the visibility of this place.
#[tactic(auto, unfolding(crate::specs::Load::visibility_name))]
fn visibility_name(visibility: u64) -> &'static str
    ensures { result.now ≡ visibility_name visibility }
{
    if visibility == 0 {
        "visible"
    } else if visibility == 1 {
        "invisible"
    } else {
        "gone"
    }
}

impl Maker {
    /// The line that sets the width and the height of a view in pixels, without its end.
    fn put_size(&mut self, view: u64, width: u64, height: u64)
        ensures { Puts self.old self.new (size_line view width height) }
    {
        self.put(b"size v");
        self.number(view);
        self.put(b" ");
        self.number(width);
        self.put(b" ");
        self.number(height);
    }

    /// The line that sets the background of a view, without its end. The colour has 24 bits and is opaque.
    fn put_color(&mut self, view: u64, color: u32)
        ensures { Puts self.old self.new (color_line view color) }
    {
        self.put(b"bg v");
        self.number(view);
        self.put(b" #ff");
        self.six_digits(color);
    }

    /// The line that sets the visibility of a view by its word, without its end.
    fn put_visible(&mut self, view: u64, visibility: &str)
        ensures { Puts self.old self.new (visible_line view visibility.now) }
    {
        self.put(b"visible v");
        self.number(view);
        self.put(b" ");
        self.put(visibility.as_bytes());
    }

    /// The line that sets the weight of a view, without its end.
    fn put_weight(&mut self, view: u64, weight: u64)
        ensures { Puts self.old self.new (weight_line view weight) }
    {
        self.put(b"weight v");
        self.number(view);
        self.put(b" ");
        self.number(weight);
    }

    /// The line that sets the margins of a view in pixels, without its end: `across` left and right, `down` above and
    /// below.
    fn put_margins(&mut self, view: u64, across: u64, down: u64)
        ensures { Puts self.old self.new (margins_line view across down) }
    {
        self.put(b"margins v");
        self.number(view);
        self.put(b" ");
        self.number(across);
        self.put(b" ");
        self.number(down);
        self.put(b" ");
        self.number(across);
        self.put(b" ");
        self.number(down);
    }

    /// A line that gives a view a width and a height below 60 pixels, drawn in this order.
    fn size(&mut self, view: u64)
        ensures { (load : Load) → Makes self.old load → Makes self.new (with_size view load) }
    {
        let width = self.draw(60);
        let height = self.draw(60);
        self.put_size(view, width, height);
        self.put(b"\n");
    }

    /// A line that gives a view a background of a colour that is drawn.
    fn color(&mut self, view: u64)
        ensures { (load : Load) → Makes self.old load → Makes self.new (with_color view load) }
    {
        let color = self.draw(16777216);
        self.put_color(view, color as u32);
        self.put(b"\n");
    }

    /// A line that gives a view one of the three visibilities, which is drawn.
    fn visibility(&mut self, view: u64)
        ensures { (load : Load) → Makes self.old load → Makes self.new (with_visibility view load) }
    {
        let visibility = self.draw(3);
        self.put_visible(view, visibility_name(visibility));
        self.put(b"\n");
    }

    /// A line that gives a view a weight below 3, which is drawn.
    fn weight(&mut self, view: u64)
        ensures { (load : Load) → Makes self.old load → Makes self.new (with_weight view load) }
    {
        let weight = self.draw(3);
        self.put_weight(view, weight);
        self.put(b"\n");
    }

    /// A line that gives a view margins below 8 pixels: those at the left and the right are drawn, then those above and
    /// below.
    fn margins(&mut self, view: u64)
        ensures { (load : Load) → Makes self.old load → Makes self.new (with_margins view load) }
    {
        let across = self.draw(8);
        let down = self.draw(8);
        self.put_margins(view, across, down);
        self.put(b"\n");
    }

    /// One of the edits of a view.
    fn edit(&mut self, choice: u64, view: u64)
        ensures { (load : Load) → Makes self.old load → Makes self.new (with_edit choice view load) }
    {
        if choice == 0 {
            self.size(view)
        } else if choice == 1 {
            self.color(view)
        } else if choice == 2 {
            self.visibility(view)
        } else if choice == 3 {
            self.weight(view)
        } else {
            self.margins(view)
        }
    }

    /// A frame, and after every sixteenth its digest.
    fn frame(&mut self, step: u64)
        ensures { (load : Load) → Makes self.old load → Makes self.new (with_frame step load) }
    {
        self.put(b"frame");
        self.put(b"\n");
        if step % 16 != 0 {
            return;
        }
        self.put(b"digest");
        self.put(b"\n");
    }

    /// An edit of one of `count` views, and a frame.
    pub fn step(&mut self, views: u64, step: u64)
        requires some { 0 < views }
        requires few { views < 2 ^ 40 }
        ensures { (load : Load) → Makes self.old load → Makes self.new (with_step views step load) }
    {
        let view = 8 + self.draw(views);
        let choice = self.draw(5);
        self.edit(choice, view);
        self.frame(step);
    }
}
