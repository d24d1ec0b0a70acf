// Flows and stitches by the places of their parts in the file.
ghost use Rattle.std.specs.Prelude.{◌≡◌, ◌≤◌, length};
ghost use Rattle.searches.specs.Views.{title_view_of, stitch_view_of, flow_view_of};

use fields::read_list;
use story::headings::read_heading;

// A stitch: the count bytes of its name, its parameters and its divert parameters, its nodes, and its end.
#[derive(Clone, Copy)]
pub struct StitchView {
    pub name: usize,
    pub params: usize,
    pub marks: usize,
    pub from: usize,
    pub to: usize,
    pub end: usize,
}

// A flow: its first byte, its flag, the places as of a stitch, its stitches, and its end.
#[derive(Clone, Copy)]
pub struct FlowView {
    pub at: usize,
    pub function: bool,
    pub name: usize,
    pub params: usize,
    pub marks: usize,
    pub from: usize,
    pub to: usize,
    pub stitches: usize,
    pub end: usize,
}

// What a flow or a stitch has from its name on, to its end.
fn title_view(file: &[u8], name: usize, end: usize) -> Option<StitchView>
    requires { (name ≤ end) × (end ≤ length file.now) }
    ensures { result ≡ title_view_of file.now name end }
{
    let h = read_heading(&file[name..end]).ok()?;
    Some(StitchView {
        name,
        params: name + h.params,
        marks: name + h.marks,
        from: name + h.nodes,
        to: name + h.end,
        end,
    })
}

// The stitch at the place, of those to the end.
pub fn stitch_view(file: &[u8], at: usize, end: usize) -> Option<StitchView>
    requires { (at ≤ end) × (end ≤ length file.now) }
    ensures { result ≡ stitch_view_of file.now at end }
{
    let e = read_list(&file[at..end]).ok()?;
    title_view(file, at + 4, at + e)
}

// The flow at the place, of those to the end.
pub fn flow_view(file: &[u8], at: usize, end: usize) -> Option<FlowView>
    requires { (at ≤ end) × (end ≤ length file.now) }
    ensures { result ≡ flow_view_of file.now at end }
{
    let e = read_list(&file[at..end]).ok()?;
    if e == 4 {
        return None;
    }
    let own = title_view(file, at + 5, at + e)?;
    Some(FlowView {
        at,
        function: file[at + 4] == 1,
        name: own.name,
        params: own.params,
        marks: own.marks,
        from: own.from,
        to: own.to,
        stitches: own.to,
        end: own.end,
    })
}
