//! The lines that make views.

ghost use Rattle.std.specs.Prelude.{◌≡◌};
ghost use Rattle.load_maker.specs.Load.{Load, add_line, class_name, text_line, with_text, with_view};
ghost use Rattle.load_maker.specs.Made.{Makes, Puts};

use crate::making::Maker;

/// The name of the class of this place.
#[tactic(auto, unfolding(crate::specs::Load::class_name))]
fn class_name(class: u64) -> &'static str
    ensures { result.now ≡ class_name class }
{
    if class == 0 {
        "View"
    } else if class == 1 {
        "TextView"
    } else {
        "FrameLayout"
    }
}

impl Maker {
    /// The line that adds a view of a class and a size in pixels to a parent, without its end.
    fn put_add(&mut self, parent: u64, class: &str, width: u64, height: u64)
        ensures { Puts self.old self.new (add_line parent class.now width height) }
    {
        self.put(b"add v");
        self.number(parent);
        self.put(b" ");
        self.put(class.as_bytes());
        self.put(b" ");
        self.number(width);
        self.put(b" ");
        self.number(height);
    }

    /// The line that sets the text of a view to a number, without its end.
    fn put_text(&mut self, view: u64, number: u64)
        ensures { Puts self.old self.new (text_line view number) }
    {
        self.put(b"text v");
        self.number(view);
        self.put(b" ");
        self.number(number);
    }

    /// The text of a view of this class, if it has one.
    fn text(&mut self, view: u64, class: u64)
        ensures { (load : Load) → Makes self.old load → Makes self.new (with_text view class load) }
    {
        if class != 1 {
            return;
        }
        let number = self.draw(100000);
        self.put_text(view, number);
        self.put(b"\n");
    }

    /// The lines of a new view.
    pub fn view(&mut self, view: u64)
        ensures { (load : Load) → Makes self.old load → Makes self.new (with_view view load) }
    {
        let class = self.draw(3);
        let parent = 1 + self.draw(7);
        let width = self.draw(60);
        let height = self.draw(60);
        self.put_add(parent, class_name(class), width, height);
        self.put(b"\n");
        self.text(view, class);
    }
}
