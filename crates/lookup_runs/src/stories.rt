// Stories put together in a lent buffer.
ghost use Rattle.lookup_runs.specs.Room.{SameRoom};

use builder::{Builder, Kind, Starts};

// What is spelled in a flow or a stitch: its name, its parameter and its label.
#[derive(Clone, Copy)]
struct Spelled<'a> {
    name: &'a [u8],
    param: Option<&'a [u8]>,
    label: &'a [u8],
}

// Puts a labelled choice without conditions and nodes.
fn put_choice(file: &mut Builder, label: &[u8])
    ensures { SameRoom file.old file.new }
{
    file.byte(Kind::Choice.byte());
    file.sized(|file| {
        file.byte(1);
        file.name(label);
        file.number(0);
        file.number(0);
    });
}

// Puts a name, its parameter, and no divert parameters.
fn put_title(file: &mut Builder, name: &[u8], param: Option<&[u8]>)
    ensures { SameRoom file.old file.new }
{
    file.name(name);
    match param {
        Some(param) => {
            file.byte(1);
            file.name(param);
        }
        None => file.byte(0),
    }
    file.byte(0);
}

// Puts a stitch that has a gather. The closure is lent: of one that is handed over and holds an `Option` of a reference the check knows nothing.
fn put_stitch(file: &mut Builder, spelled: Spelled)
    ensures { SameRoom file.old file.new }
{
    file.sized(&|file: &mut Builder| {
        put_title(file, spelled.name, spelled.param);
        file.sized(|file| file.named(Kind::Gather.byte(), spelled.label));
    });
}

// Puts a flow that has a choice, and a stitch. The closure is lent, as in `put_stitch`.
fn put_flow(file: &mut Builder, spelled: Spelled, stitch: Spelled)
    ensures { SameRoom file.old file.new }
{
    file.sized(&|file: &mut Builder| {
        file.byte(0);
        put_title(file, spelled.name, spelled.param);
        file.sized(|file| put_choice(file, spelled.label));
        put_stitch(file, stitch);
    });
}

// Puts a function without parameters and nodes.
fn put_function(file: &mut Builder, name: &[u8])
    ensures { SameRoom file.old file.new }
{
    file.sized(|file| {
        file.byte(1);
        put_title(file, name, None);
        file.number(0);
    });
}

// Puts the globals g, f, END and a long name.
fn put_globals(file: &mut Builder, long: &[u8])
    ensures { SameRoom file.old file.new }
{
    file.name(b"g");
    file.name(b"f");
    file.name(b"END");
    file.name(long);
}

// Puts the flows: the knot k(p) with the label a and its stitch s(q) with the label b, the function f,
// and a flow with the empty name and the label c, and its stitch s with the label d.
fn put_flows(file: &mut Builder)
    ensures { SameRoom file.old file.new }
{
    put_flow(
        file,
        Spelled {
            name: b"k",
            param: Some(b"p"),
            label: b"a",
        },
        Spelled {
            name: b"s",
            param: Some(b"q"),
            label: b"b",
        },
    );
    put_function(file, b"f");
    put_flow(
        file,
        Spelled {
            name: b"",
            param: None,
            label: b"c",
        },
        Spelled {
            name: b"s",
            param: None,
            label: b"d",
        },
    );
}

// Puts a story in which a lookup can give every answer: the root has the label r, and a divert to a name that stands nowhere else.
pub fn put_story(file: &mut Builder, long: &[u8])
    ensures { SameRoom file.old file.new }
{
    put_globals(file, long);
    let externals = file.end();
    file.name(b"e");
    let root = file.end();
    file.named(Kind::Gather.byte(), b"r");
    file.named(Kind::Divert.byte(), b"nowhere");
    let flows = file.end();
    put_flows(file);
    file.trailer(Starts {
        globals: 0,
        externals,
        root,
        flows,
    });
}

// Puts a trailer alone, with this first start.
pub fn put_start(file: &mut Builder, globals: usize)
    ensures { SameRoom file.old file.new }
{
    file.trailer(Starts {
        globals,
        externals: 0,
        root: 0,
        flows: 0,
    });
}

// Puts the trailer of a story that has nothing but globals.
fn put_globals_end(file: &mut Builder)
    ensures { SameRoom file.old file.new }
{
    let end = file.end();
    file.trailer(Starts {
        globals: 0,
        externals: end,
        root: end,
        flows: end,
    });
}

// Puts the trailer of a story that has nothing but a root.
fn put_root_end(file: &mut Builder)
    ensures { SameRoom file.old file.new }
{
    let flows = file.end();
    file.trailer(Starts {
        globals: 0,
        externals: 0,
        root: 0,
        flows,
    });
}

// Puts a story whose globals are the one byte 5.
pub fn put_cut_name(file: &mut Builder)
    ensures { SameRoom file.old file.new }
{
    file.byte(5);
    put_globals_end(file);
}

// Puts a story with one global.
pub fn put_global(file: &mut Builder, name: &[u8])
    ensures { SameRoom file.old file.new }
{
    file.name(name);
    put_globals_end(file);
}

// Puts a story whose root is a record of kind 17.
pub fn put_unknown(file: &mut Builder)
    ensures { SameRoom file.old file.new }
{
    file.head(17, 0);
    put_root_end(file);
}

// Puts a story whose root is an output that holds 63 Negates around a constant.
pub fn put_deep(file: &mut Builder)
    ensures { SameRoom file.old file.new }
{
    file.head(Kind::Output.byte(), 320);
    file.negations(63);
    put_root_end(file);
}
