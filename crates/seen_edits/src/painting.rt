//! Painting what has to be painted again.
ghost use Rattle.std.specs.Prelude.{◌≡◌, ◌+◌, ◌-◌, ◌*◌, ◌^◌, ◌<◌, ◌≤◌, min};
ghost use Rattle.damage_rect.specs.Damages.{no_damage};
ghost use Rattle.pixel_raster.specs.Raster.{size_of};
ghost use Rattle.seen_edits.specs.Differing.{differing};
ghost use Rattle.seen_edits.specs.Shown.{Shows};
ghost use Rattle.tree_painter.specs.Painted.{area_in};
ghost use Rattle.view_model.specs.Forest.{count_of};
ghost use Rattle.view_model.specs.Painting.{picture};
ghost use Rattle.view_tree.specs.Views.{geometry_of, plain_of};
ghost use Rattle.view_model.specs.Works.{KeepsPainted};

use damage_rect::Damage;
use pixel_raster::Surface;
use tree_painter::paint;
use view_model::Work;
use view_tree::ViewTree;

/// Paints the damage of a picture, which shows the tree everywhere else. Nothing is damage after that.
pub fn paint_damage(tree: &ViewTree, surface: &mut Surface, damage: &mut Damage, work: &mut Work)
    requires { Shows surface.old damage.old.rect tree.now }
    ensures size { size_of surface.new ≡ size_of surface.old }
    ensures picture { surface.new.pixels
        ≡ picture surface.old.width surface.old.height (geometry_of tree.now) (plain_of tree.now) }
    ensures shows { Shows surface.new damage.new.rect tree.now }
    ensures emptied { damage.new ≡ no_damage }
    ensures grew { KeepsPainted work.old work.new }
    ensures most { work.new.painted
        ≤ work.old.painted + (2 * count_of tree.now.tree + 1) * area_in surface.old damage.old.rect }
    ensures least { min (work.old.painted + differing surface.old.pixels surface.new.pixels) (2 ^ 64 - 1)
        ≤ work.new.painted }
    ensures filled { work.new.painted < 2 ^ 64 - 1
        → surface.new.filled < 2 ^ 64 - 1
        → work.new.painted + surface.old.filled ≡ work.old.painted + surface.new.filled }
    ensures measured { work.new.measured ≡ work.old.measured }
{
    let _was_in_rows = surface.size();
    paint(tree, surface, damage.rect(), work);
    let _in_rows = surface.size();
    *damage = Damage::new();
}
