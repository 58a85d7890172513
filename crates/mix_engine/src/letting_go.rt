//! What a connection holds and watches, and letting it go.
ghost use Rattle.std.specs.Prelude.{◌≡◌, ◌++◌, ◌∷◌, [], not, IfOk, OnErr, OnOk};
ghost use Rattle.mix_model.specs.Marks.{marks_of};
ghost use Rattle.mix_model.specs.WholeShape.{StudioShape};
ghost use Rattle.mix_requests.specs.Sources.{edited_alone};
ghost use Rattle.mix_model.specs.Edits.{let_go};
ghost use Rattle.mix_engine.specs.Leaving.{ids_of, is_of, notes_without, others_of, studio_without};

use mix_base::{ConnId, ListOf, NoMemory};
use mix_model::{Note, NoteList, Notes};
use mix_studio::Studio;
use std::alloc::Global;
use std::mem;

/// What a connection holds and watches is let go, in an action that begins with this. At `Err`
/// nothing is done.
pub fn let_go_all(
    alloc: Global,
    studio: &mut Studio,
    notes: &mut Notes,
    conn: ConnId,
) -> Result<(), NoMemory>
    requires shape { StudioShape studio.old.present }
    ensures ok { OnOk result (studio.new.present
        ≡ studio_without conn notes.old studio.old.present) }
    ensures ok_notes { OnOk result (notes.new ≡ notes_without conn notes.old) }
    ensures err { OnErr result (studio.new ≡ studio.old) }
    ensures err_notes { OnErr result (notes.new ≡ notes.old) }
    ensures shape { StudioShape studio.new.present }
{
    let holds = ids_of(alloc, notes.holds.as_slice(), conn)?;
    let Ok(watches) = ids_of(alloc, notes.watches.as_slice(), conn) else {
        drop(holds);
        return Err(NoMemory);
    };
    studio.begin_changes();
    let_go(studio, holds.as_slice(), watches.as_slice());
    drop(holds);
    drop(watches);
    notes_without(alloc, notes, conn);
    Ok(())
}

/// The ids of the notes of a connection.
fn ids_of(alloc: Global, notes: &[Note], conn: ConnId) -> Result<Vec<u64>, NoMemory>
    ensures value { IfOk result (λ ids. ids.items ≡ ids_of conn notes.now) }
{
    let mut ids = Vec::new(alloc);
    for note in notes {
        let Ok(()) = add_id(&mut ids, note, conn) else {
            drop(ids);
            return Err(NoMemory);
        };
    }
    Ok(ids)
}

/// The id of a note comes to the others, where it is one of the connection.
fn add_id(ids: &mut Vec<u64>, note: &Note, conn: ConnId) -> Result<(), NoMemory>
    ensures ok { OnOk result (ids.new.items ≡ ids.old.items ++ ids_of conn (note.now ∷ [])) }
{
    if note.conn == conn {
        ids.push(note.id)?;
    }
    Ok(())
}

/// Holds are released and watches dropped, in an action that has just begun.
fn let_go(studio: &mut Studio, holds: &[u64], watches: &[u64])
    requires begun { studio.old.begun ≡ marks_of studio.old.present.graph }
    requires shape { StudioShape studio.old.present }
    ensures state { studio.new.present
        ≡ edited_alone (let_go holds.now watches.now) studio.old.present }
    ensures shape { StudioShape studio.new.present }
{
    let graph = studio.graph_mut();
    graph.let_go(holds, watches);
    graph.has_shape();
}

/// The notes of a connection go.
fn notes_without(alloc: Global, notes: &mut Notes, conn: ConnId)
    ensures value { notes.new ≡ notes_without conn notes.old }
{
    let holds = mem::replace(&mut notes.holds, ListOf::from_vec(Vec::new(alloc)));
    notes.holds = others_of(holds, conn);
    let watches = mem::replace(&mut notes.watches, ListOf::from_vec(Vec::new(alloc)));
    notes.watches = others_of(watches, conn);
}

/// Notes without those of a connection.
fn others_of(notes: NoteList, conn: ConnId) -> NoteList
    ensures value { result ≡ others_of conn notes }
{
    let mut notes = notes.into_vec();
    notes.retain(|note| is_other(conn, note));
    ListOf::from_vec(notes)
}

fn is_other(conn: ConnId, note: &Note) -> bool
    ensures value { result ≡ not (is_of conn note.now) }
{
    note.conn != conn
}
