//! Opening a studio with a collection.
ghost use Rattle.std.specs.Prelude.{◌≡◌, All, IfErr, IfOk, IfSome, IsTrue, Ok};
ghost use Rattle.mix_graph.specs.Refused.{are_limits};
ghost use Rattle.mix_model.specs.Collections.{IsCollection};
ghost use Rattle.mix_model.specs.Edits.{empty_graph};
ghost use Rattle.mix_model.specs.Fitting.{Fits, IsFitting};
ghost use Rattle.mix_model.specs.Lines.{lines_done, named_scene_cause, serial_named};
ghost use Rattle.mix_model.specs.Lookups.{row_passes};
ghost use Rattle.mix_model.specs.Marks.{marks_of};
ghost use Rattle.mix_model.specs.Opening.{opening_of, opening_preview, preview_cause};
ghost use Rattle.mix_model.specs.Rows.{is_scene};
ghost use Rattle.mix_model.specs.Shape.{GraphShape};
ghost use Rattle.mix_model.specs.Values.{is_duration};
ghost use Rattle.mix_model.specs.WholeShape.{StudioShape};
ghost use Rattle.mix_studio.specs.Openings.{IsFresh, IsLow, IsRefusal, IsScene, Tells};
ghost use Rattle.mix_studio.specs.Openings.{bus_of, ends_set};

use crate::lines::add_line;
use crate::recording::Recording;
use crate::{Setup, Studio};
use mix_base::{Limits, Name, NoMemory, Serial, Text};
use mix_graph::Graph;
use mix_model::{Collection, GraphFault, Kind, Line};
use mix_transition::ProgramBus;
use std::alloc::Global;

impl Studio {
    /// Opens a collection that isn't refused.
    pub fn new(alloc: Global, setup: Setup) -> Result<Studio, NoMemory>
        requires opens { IsCollection setup.collection }
        requires limits { IsTrue (are_limits setup.limits) }
        ensures value { IfOk result
            (λ studio. opening_of setup.collection ≡ Ok studio.present) }
        ensures begun { IfOk result (λ studio. studio.begun ≡ marks_of studio.present.graph) }
        ensures shape { IfOk result (λ studio. StudioShape studio.present) }
    {
        let opened = Studio::open(alloc, &setup);
        drop(setup);
        match opened {
            Ok(studio) => Ok(studio),
            Err(_) => Err(NoMemory),
        }
    }

    /// Opens a collection, or tells its first refusal: nothing is in flight, dying, held or
    /// watched, both clocks stand at 0, and an action begins.
    pub fn open(alloc: Global, setup: &Setup) -> Result<Studio, GraphFault>
        requires fits { IsFitting setup.now.collection }
        requires limits { IsTrue (are_limits setup.now.limits) }
        ensures refused { IfErr result (IsRefusal (opening_of setup.now.collection)) }
        ensures value { IfOk result
            (λ studio. opening_of setup.now.collection ≡ Ok studio.present) }
        ensures begun { IfOk result (λ studio. studio.begun ≡ marks_of studio.present.graph) }
        ensures shape { IfOk result (λ studio. StudioShape studio.present) }
        ensures low { IfOk result (λ studio. IsLow studio.present) }
    {
        let lines = setup.collection.lines.as_slice();
        let mut graph = match open_lines(alloc, setup.limits, lines) {
            Ok(graph) => graph,
            Err(fault) => return Err(fault),
        };
        let preview = match preview_named(alloc, &graph, &setup.collection.studio) {
            Ok(preview) => preview,
            Err(fault) => {
                drop(graph);
                return Err(fault);
            }
        };
        let program = match scene_named(alloc, &graph, &setup.collection.program) {
            Ok(program) => program,
            Err(fault) => {
                drop(graph);
                return Err(fault);
            }
        };
        set_ends(&mut graph, preview, program);
        Ok(Studio {
            graph,
            bus: opening_bus(&setup.collection, program),
            canvas: setup.collection.canvas,
            rate: setup.collection.rate,
            i420: setup.collection.i420,
            tracks: setup.collection.tracks,
            studio_mode: setup.collection.studio.is_some(),
            audio_clock: 0,
            recording: Recording::none(),
        })
    }
}

/// The sources of lines, or the first refusal.
fn open_lines(alloc: Global, limits: Limits, lines: &[Line]) -> Result<Graph, GraphFault>
    requires limits { IsTrue (are_limits limits) }
    requires fits { All Fits lines.now }
    ensures refused { IfErr result (IsRefusal (lines_done empty_graph lines.now)) }
    ensures fresh { IfOk result IsFresh }
    ensures value { IfOk result
        (λ graph. lines_done empty_graph lines.now ≡ Ok graph.present) }
{
    let mut graph = Graph::new(alloc, limits);
    for line in lines {
        match add_line(alloc, &mut graph, line) {
            Ok(()) => {}
            Err(fault) => {
                drop(graph);
                return Err(fault);
            }
        }
    }
    Ok(graph)
}

/// The serial of the source of a name; 0, which none has, where there is none.
pub fn serial_named(alloc: Global, graph: &Graph, name: &Name) -> Result<Serial, NoMemory>
    requires fresh { IsFresh graph.now }
    ensures value { IfOk result (λ serial. serial ≡ serial_named graph.now.present name.now) }
{
    let name = Text::from_str(alloc, name.as_str())?;
    let serial = graph.find(&name).unwrap_or(Serial(0));
    drop(name);
    Ok(serial)
}

/// The serial of the scene of a name, or why the name is refused.
fn scene_named(alloc: Global, graph: &Graph, name: &Name) -> Result<Serial, GraphFault>
    requires fresh { IsFresh graph.now }
    ensures refused { Tells (named_scene_cause graph.now.present name.now) result }
    ensures value { IfOk result (λ serial. serial ≡ serial_named graph.now.present name.now) }
    ensures scene { IfOk result (IsScene graph.now.present) }
{
    let Ok(serial) = serial_named(alloc, graph, name) else {
        return Err(GraphFault::NoMemory);
    };
    if !graph.named(serial) {
        return Err(GraphFault::NotFound);
    }
    if !is_scene_row(graph, serial) {
        return Err(GraphFault::WrongKind);
    }
    Ok(serial)
}

/// Whether the row of this serial is a scene.
fn is_scene_row(graph: &Graph, serial: Serial) -> bool
    ensures value { result ≡ row_passes graph.now.present (λ r. is_scene r.kind) serial }
{
    match graph.row(serial) {
        None => false,
        Some(row) => matches!(row.kind, Kind::Scene),
    }
}

/// The serial of the preview, where a studio opens in studio mode.
fn preview_named(
    alloc: Global,
    graph: &Graph,
    name: &Option<Name>,
) -> Result<Option<Serial>, GraphFault>
    requires fresh { IsFresh graph.now }
    ensures refused { Tells (preview_cause graph.now.present name.now) result }
    ensures value { IfOk result (λ to. to ≡ opening_preview graph.now.present name.now) }
    ensures scene { IfOk result (λ to. IfSome to (IsScene graph.now.present)) }
{
    match name {
        None => Ok(None),
        Some(name) => match scene_named(alloc, graph, name) {
            Ok(scene) => Ok(Some(scene)),
            Err(fault) => Err(fault),
        },
    }
}

/// The preview is set, then channel 0, and then an action begins.
fn set_ends(graph: &mut Graph, preview: Option<Serial>, program: Serial)
    requires fresh { IsFresh graph.old }
    requires preview { IfSome preview (IsScene graph.old.present) }
    requires program { IsScene graph.old.present program }
    ensures present { graph.new.present ≡ ends_set preview program graph.old.present }
    ensures begun { graph.new.begun ≡ marks_of graph.new.present }
    ensures shape { GraphShape graph.new.present }
{
    let _ = graph.set_preview(preview);
    let _ = graph.set_channel(0, Some(program), None);
    graph.begin_changes();
    graph.has_shape();
}

/// The program at rest on a scene, and how its next change goes.
fn opening_bus(collection: &Collection, program: Serial) -> ProgramBus
    requires duration { IsTrue (is_duration collection.now.ms) }
    ensures value { result ≡ bus_of collection.now program }
{
    let mut bus = ProgramBus::new(program);
    bus.choose(collection.fade);
    bus.set_duration(collection.ms);
    bus
}
