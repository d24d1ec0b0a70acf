// Variables of a stitch: rule 15 (variables.rs).
ghost use Rattle.std.specs.Prelude.{◌≡◌, ◌≤◌, List, length};
ghost use Rattle.records.specs.Items.{What};
ghost use Rattle.story.specs.Flows.{part};
ghost use Rattle.items.specs.declared.named.Sought.TheVariants as sought;
ghost use Rattle.sets.specs.Members.{Members};
ghost use Rattle.rules.specs.declared.Rule.TheVariants as Rule;
ghost use Rattle.rules.specs.Rules as rules;
ghost use Rattle.rules.specs.Rules.{broken};
ghost use Rattle.broken.specs.Things.{ThingIs};
ghost use Rattle.broken.specs.Scopes.{declared_in, here_in, KnotSet, BodySet};

use crate::Thing;
use crate::asked::Here;
use items::named::Sought;
use names::name_at;
use records::sorts::Sort;
use searches::is_counted;
use sets::Class;
use sets::members::Among;

// What a flow or a stitch declares: its parameters, and the temps of its run of kept items, in the set but for those from item `rest` on.
#[derive(Clone, Copy)]
struct Declared<'a> {
    params: usize,
    first: usize,
    last: usize,
    rest: usize,
    set: &'a [u32],
}

impl Here<'_> {
    // The name is a parameter or a temp that the flow or the stitch declares.
    #[tactic(auto, using(crate::proofs::Among::temps_among), unfolding(story::specs::Flows::part))]
    fn is_declared(&self, d: Declared<'_>, name: &[u8]) -> bool
        requires run_in_bounds { (d.first ≤ d.last) × (d.last ≤ length self.now.kept.now) }
        requires members { Members sought.Temp self.now.file.now 1 (part d.first d.last self.now.kept.now) (length (part d.first d.last self.now.kept.now)) d.set.now d.rest }
        ensures { result ≡ declared_in self.now.file.now self.now.kept.now d.entry.params d.entry.first d.entry.last name.now }
    {
        if is_counted(self.file, d.params, name) {
            return true;
        }
        let items = &self.kept[d.first..d.last];
        let temps = Among {
            sought: Sought::Temp,
            file: self.file,
            items,
            passed: items.len(),
            rest: d.rest,
            class: Class::Temp,
            set: d.set,
        };
        temps.has(name)
    }

    // Rule 15: a variable that the knot declares and the stitch does not.
    #[tactic(auto, unfolding(rules::specs::Rules::broken, crate::specs::Scopes::here_in))]
    pub fn is_variable_forbidden(&self, knot: &[u32], body: &[u32], number: usize, t: Thing) -> bool
        requires knot_set { KnotSet self.now.file.now self.now.kept.now self.now.site knot.now }
        requires body_set { BodySet self.now.file.now self.now.kept.now self.now.site number body.now }
        ensures { (k : rules.Known) (before : List What) (w : What) → ThingIs self.now.file.now t w → result ≡ broken k (here_in self.now.file.now self.now.kept.now self.now.site.scope) before Rule.VariableForbidden w }
    {
        if t.is(Sort::Variable) {
            let s = self.site.scope;
            let n = self.site.rests;
            let name = name_at(self.file, t.name);
            let of_knot = Declared {
                params: s.outer,
                first: s.knot,
                last: s.own,
                rest: n.temps,
                set: knot,
            };
            let of_stitch = Declared {
                params: s.params,
                first: s.first,
                last: s.last,
                rest: n.own,
                set: body,
            };
            return self.is_declared(of_knot, name) && !self.is_declared(of_stitch, name);
        }
        false
    }
}
