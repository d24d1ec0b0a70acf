// The sets of a knot and of a body: the names of their items, put as far as there is room.
ghost use Rattle.broken.specs.Scopes.{ScopeReady};
ghost use Rattle.steps.specs.Fillings.{KnotPut, BodyPut};

use broken::{Rests, Scope, Site};
use items::named::Sought;
use sets::members::NamedItems;
use sets::{Class, clear};

// Clears the knot's set, and puts the labels of the knot and its stitches and the temps of its own list.
pub fn put_knot(kept: NamedItems<'_>, s: Scope, knot: &mut [u32]) -> Rests
    requires { ScopeReady kept.file.now kept.items.now s }
    ensures { KnotPut kept.entry.file.now kept.entry.items.now s result knot.new }
{
    clear(knot);
    let whole = kept.between(s.knot, s.end);
    let own = kept.between(s.knot, s.own);
    let labels = whole.put_items(Sought::Label, Class::Label, knot);
    let temps = own.put_items(Sought::Temp, Class::Temp, knot);
    Rests {
        labels,
        temps,
        own: 0,
        gathers: 0,
    }
}

// Clears the body's set, and puts the body's temps where they are asked for, as those of a stitch are. The rests of the knot stay.
pub fn put_body(kept: NamedItems<'_>, s: Site, inner: bool, body: &mut [u32]) -> Rests
    requires { ScopeReady kept.file.now kept.items.now s.scope }
    ensures { BodyPut kept.entry.file.now kept.entry.items.now s result body.new }
{
    clear(body);
    if inner {
        let items = kept.between(s.scope.first, s.scope.last);
        let own = items.put_items(Sought::Temp, Class::Temp, body);
        return Rests {
            own,
            gathers: 0,
            ..s.rests
        };
    }
    Rests {
        own: 0,
        gathers: 0,
        ..s.rests
    }
}
