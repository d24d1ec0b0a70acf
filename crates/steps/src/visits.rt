// One visit of a step: each rule of its bracket that is broken at the thing is heard, in order.
ghost use Rattle.std.specs.Prelude.{◌≡◌, List, ℕ};
ghost use Rattle.records.specs.Items.{What};
ghost use Rattle.records.specs.Numbers.{item_in};
ghost use Rattle.broken.specs.Scopes.{Ready};
ghost use Rattle.steps.specs.Heard.{heard, hear_all};
ghost use Rattle.steps.specs.Visits.{LikeThing, BearsName, thing_of, at_item, found};

use crate::Tally;
use broken::asked::{Asked, Story};
use broken::{At, Rests, Site, Thing};
use items::items::{choice_has_explicit_divert, in_branch, named_at, sort_in};
use rules::Rule;

// A visit: the thing with all that a rule may ask, the places of the breach and of the thing's name, and what was heard before.
#[derive(Clone, Copy)]
pub struct Visit {
    pub at: At,
    pub place: usize,
    pub named: usize,
    pub tally: Tally,
}

// The thing of a kept item.
pub fn thing_of(item: u32) -> Thing
    ensures by_index { (file : List ℕ) → BearsName file (item_in file item) → LikeThing file result (item_in file item).what }
    ensures value { result ≡ thing_of item }
{
    Thing {
        sort: sort_in(item),
        name: named_at(item),
        branch: in_branch(item),
        leaves: choice_has_explicit_divert(item),
    }
}

// The thing, which is item number `number` of the body, at the site with the gathers in the set up to `gathers`.
pub fn at_item(site: Site, gathers: usize, thing: Thing, number: usize) -> At
    ensures { result ≡ at_item site gathers thing number }
{
    let rests = Rests {
        gathers,
        ..site.rests
    };
    At {
        site: Site { rests, ..site },
        thing,
        number,
    }
}

// THE VISIT: hears each of the rules that is broken at the thing, in order.
pub fn visit_thing(
    story: &Story<'_>,
    knot: &[u32],
    body: &[u32],
    rules: &[Rule],
    list: &mut [u32],
    v: Visit,
) -> Tally
    requires { Ready story.now.file.now story.now.kept.now knot.now body.now v.at.site v.at.number }
    ensures { (w : What) → LikeThing story.now.file.now v.at.thing w → heard result list.new ≡ hear_all (heard v.tally list.old) (found story.now.view.sections story.now.file.now story.now.kept.now v rules.now w) }
{
    let at = v.at;
    let asked = Asked {
        story,
        knot,
        body,
        at,
    };
    let mut tally = v.tally;
    for &rule in rules {
        if asked.is_broken(rule) {
            tally = tally.hear(rule, v.place, at.site.scope.flow, v.named, list);
        }
    }
    tally
}
