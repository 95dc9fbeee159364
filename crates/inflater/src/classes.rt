//! The names of classes in layout files.
ghost use Rattle.std.specs.Prelude.{◌≡◌};
ghost use Rattle.inflater.specs.ClassNames.{class_of};

use view_model::Class;

/// The class that an element's name means: its name alone, or with its package before it.
pub fn class_of(name: &str) -> Option<Class>
    ensures { result ≡ class_of name.now }
{
    let name = name.as_bytes();
    if let Some(word) = name.strip_prefix(b"android.widget.") {
        return match Class::named(word)? {
            Class::View => None,
            class => Some(class),
        };
    }
    if let Some(word) = name.strip_prefix(b"android.view.") {
        return match Class::named(word)? {
            Class::View => Some(Class::View),
            _ => None,
        };
    }
    Class::named(name)
}
