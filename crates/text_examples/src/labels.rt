//! Small label and owner files are read whole.

ghost use Rattle.std.specs.Prelude.{◌≡◌, IfOk, length};

use label_reader::{LabCause, LabFault, Labels, Owners, read_labels, read_owners};
use sample_games::expectations::same;
use std::alloc::Global;
use std::test::Fail;
use text_lines::MOST_BYTES;

// Reads the labels of three states from a text.
fn labels_of(alloc: Global, text: &[u8]) -> Result<Labels, Fail>
    ensures { IfOk result (λ labels. labels.states ≡ 3) }
{
    if text.len() > MOST_BYTES {
        return Err(Fail::new("too long"));
    }
    Ok(read_labels(alloc, text, 3)?)
}

// These states, and no other, have a label.
fn are_labelled(alloc: Global, labels: &Labels, name: &[u8], states: &[u32]) -> Result<(), Fail> {
    same("states", labels.states_of(alloc, name)?.as_slice(), states)
}

// States 0 and 2 have both labels, and state 1 has none.
fn are_as_said(alloc: Global, labels: &Labels) -> Result<(), Fail> {
    same(
        "names",
        (labels.knows(b"goal"), labels.knows(b"gaol")),
        (true, false),
    )?;
    same("marks", labels.marks(b"init"), &[true, false, true])?;
    are_labelled(alloc, labels, b"goal", &[0, 2])?;
    are_labelled(alloc, labels, b"gaol", &[])
}

#[test]
fn labels_add_up_in_any_order(rt: HostRuntime) -> Result<(), Fail> {
    let text = b"0=\"init\" 7=\"goal\"\r\n2: 7\n\t0 :0 7\r\n2:7 0\n \n\n";
    let labels = labels_of(rt.alloc(), text)?;
    are_as_said(rt.alloc(), &labels)
}

// A text of the owners of three states is refused in this line.
fn is_refused(alloc: Global, text: &[u8], line: u32, cause: LabCause) -> Result<(), Fail> {
    if text.len() > MOST_BYTES {
        return Err(Fail::new("too long"));
    }
    let fault = read_owners(alloc, text, 3).err();
    same("fault", fault, Some(LabFault { line, cause }))
}

// Reads the owners of three states from a text.
fn owners_of(alloc: Global, text: &[u8]) -> Result<Owners, Fail>
    ensures { IfOk result (λ owners. length owners.owners ≡ 3) }
{
    if text.len() > MOST_BYTES {
        return Err(Fail::new("too long"));
    }
    Ok(read_owners(alloc, text, 3)?)
}

// One player owns all states.
fn one_owns_all(alloc: Global) -> Result<(), Fail> {
    let owners = Owners::single(alloc, 3)?;
    same("the only owner", owners.owner(2), b"p0".as_slice())
}

#[test]
fn owners_are_read(rt: HostRuntime) -> Result<(), Fail> {
    let alloc = rt.alloc();
    let two = LabCause::TwoOwners { state: 1 };
    is_refused(alloc, b"0=\"p1\" 1=\"p2\"\n1: 0\n1: 1\n", 3, two)?;
    one_owns_all(alloc)?;
    let owners = owners_of(alloc, b"0=\"p1\" 1=\"p2\"\n1: 1 1\n1: 1\n2:\n")?;
    same(
        "names, and states 0 and 1",
        (
            owners.knows(b"p2"),
            owners.knows(b"p0"),
            owners.owner(0),
            owners.owner(1),
        ),
        (true, false, b"p1".as_slice(), b"p2".as_slice()),
    )
}
