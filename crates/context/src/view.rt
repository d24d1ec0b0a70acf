// A story, a step of the root, a flow or a stitch, and a flow, as the check sees them: borrowed parts, with what holds of them in the type.
ghost use Rattle.std.specs.Prelude.{◌≡◌};
ghost use Rattle.std.proofs.Props.{props};
ghost use Rattle.items.specs.Bodies.{Kept, rising_prop};
ghost use Rattle.context.specs.Scopes.{FlowReady, knot_view};

use checks::view::IndexView;
use filters::view::DeclaredView;
use items::runs::KeptNumbers;
use searches::views::FlowView;

// The whole story, with its index, and the numbers kept of it.
#[derive(Clone, Copy)]
pub struct WholeView<'a> {
    pub index: IndexView<'a>,
    pub kept: KeptNumbers<'a>,
    pub ghost numbers_kept: { Kept index.story.source.file.now index.story.source.sections kept.numbers.now },
}

// The story, and the body that a step goes along, both of one file.
#[derive(Clone, Copy)]
pub struct StepView<'a, 'd> {
    pub index: IndexView<'a>,
    pub place: DeclaredView<'a, 'd>,
    pub ghost same: { place.body.file.now ≡ index.story.source.file.now },
}

// A flow, and the steps along its own body.
#[derive(Clone, Copy)]
pub struct KnotView<'a, 'd> {
    pub knot: StepView<'a, 'd>,
    pub flow: FlowView,
    pub ghost own: { knot.place.body.scope ≡ knot_view flow },
    pub ghost flow_ready: { FlowReady knot.place.body.file.now knot.place.body.kept.numbers.now flow } by { Prim.hlevel (props, rising_prop) },
}
