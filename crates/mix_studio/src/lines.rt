//! The lines of a collection, each a call of the sources.
ghost use Rattle.std.specs.Prelude.{◌≡◌, IfOk, IfSome, IsTrue, OnOk};
ghost use Rattle.mix_model.specs.Fitting.{line_fits};
ghost use Rattle.mix_model.specs.Lines.{line_cause, line_done};
ghost use Rattle.mix_model.specs.Lookups.{is_row, row_of, row_passes};
ghost use Rattle.mix_model.specs.Rows.{is_tone};
ghost use Rattle.mix_studio.specs.Openings.{IsFresh, IsLeft, Tells};

use crate::opening::serial_named;
use mix_base::{Name, NoMemory, Serial};
use mix_graph::Graph;
use mix_model::{GraphFault, ItemSpec, Kind, Line, Settings, Sound};
use std::alloc::Global;

/// Does a line, or tells why it is refused.
pub fn add_line(alloc: Global, graph: &mut Graph, line: &Line) -> Result<(), GraphFault>
    requires fresh { IsFresh graph.old }
    requires fits { IsTrue (line_fits line.now) }
    ensures refused { Tells (line_cause graph.old.present line.now) result }
    ensures left { OnOk result (IsLeft (line_done graph.old.present line.now) graph.new) }
{
    match line {
        Line::Scene { name } => add_scene(graph, name.share()),
        Line::Input {
            kind,
            name,
            settings,
        } => {
            let Ok(settings) = settings.copy() else {
                return Err(GraphFault::NoMemory);
            };
            add_input(graph, *kind, name.share(), settings)
        }
        Line::Group {
            name,
            parent,
            enabled,
            locked,
            place,
            blend,
        } => {
            let spec = ItemSpec {
                enabled: *enabled,
                locked: *locked,
                place: *place,
                blend: *blend,
            };
            add_group(alloc, graph, name.share(), parent, spec)
        }
        Line::Item {
            parent,
            child,
            enabled,
            locked,
            place,
            blend,
        } => {
            let spec = ItemSpec {
                enabled: *enabled,
                locked: *locked,
                place: *place,
                blend: *blend,
            };
            add_item(alloc, graph, parent, child, spec)
        }
        Line::Sound { name, sound } => set_sound(alloc, graph, name, *sound),
        Line::Channel { channel, name } => set_channel(alloc, graph, *channel, name),
    }
}

/// Adds a scene.
fn add_scene(graph: &mut Graph, name: Name) -> Result<(), GraphFault>
    requires fresh { IsFresh graph.old }
    ensures refused { Tells (line_cause graph.old.present (Line.Scene name)) result }
    ensures left { OnOk result (IsLeft (line_done graph.old.present (Line.Scene name)) graph.new) }
{
    graph.has_shape();
    match graph.create_scene(name) {
        Ok(_) => Ok(()),
        Err(fault) => Err(fault),
    }
}

/// Adds an input.
fn add_input(
    graph: &mut Graph,
    kind: Kind,
    name: Name,
    settings: Settings,
) -> Result<(), GraphFault>
    requires fresh { IsFresh graph.old }
    requires fits { IsTrue (line_fits (Line.Input kind name settings)) }
    ensures refused { Tells (line_cause graph.old.present (Line.Input kind name settings)) result }
    ensures left { OnOk result
        (IsLeft (line_done graph.old.present (Line.Input kind name settings)) graph.new) }
{
    graph.has_shape();
    match graph.create_input(name, kind, settings, None) {
        Ok(_) => Ok(()),
        Err(fault) => Err(fault),
    }
}

/// Adds a group, with an item on top of its parent that shows it.
fn add_group(
    alloc: Global,
    graph: &mut Graph,
    name: Name,
    parent: &Name,
    spec: ItemSpec,
) -> Result<(), GraphFault>
    requires fresh { IsFresh graph.old }
    requires fits { IsTrue (line_fits (Line.Group name parent.now spec.enabled spec.locked
        spec.place spec.blend)) }
    ensures refused { Tells (line_cause graph.old.present (Line.Group name parent.now
        spec.enabled spec.locked spec.place spec.blend)) result }
    ensures left { OnOk result (IsLeft (line_done graph.old.present (Line.Group name parent.now
        spec.enabled spec.locked spec.place spec.blend)) graph.new) }
{
    let Ok(parent) = serial_named(alloc, graph, parent) else {
        drop(name);
        return Err(GraphFault::NoMemory);
    };
    graph.has_shape();
    match graph.create_group(name, parent, spec) {
        Ok(_) => Ok(()),
        Err(fault) => Err(fault),
    }
}

/// Adds an item on top of its parent.
fn add_item(
    alloc: Global,
    graph: &mut Graph,
    parent: &Name,
    child: &Name,
    spec: ItemSpec,
) -> Result<(), GraphFault>
    requires fresh { IsFresh graph.old }
    requires fits { IsTrue (line_fits (Line.Item parent.now child.now spec.enabled spec.locked
        spec.place spec.blend)) }
    ensures refused { Tells (line_cause graph.old.present (Line.Item parent.now child.now
        spec.enabled spec.locked spec.place spec.blend)) result }
    ensures left { OnOk result (IsLeft (line_done graph.old.present (Line.Item parent.now child.now
        spec.enabled spec.locked spec.place spec.blend)) graph.new) }
{
    let Ok(parent) = serial_named(alloc, graph, parent) else {
        return Err(GraphFault::NoMemory);
    };
    let Ok(child) = serial_named(alloc, graph, child) else {
        return Err(GraphFault::NoMemory);
    };
    graph.has_shape();
    match graph.add_item(parent, child, spec) {
        Ok(_) => Ok(()),
        Err(fault) => Err(fault),
    }
}

/// Sets the sound of a tone.
fn set_sound(alloc: Global, graph: &mut Graph, name: &Name, sound: Sound) -> Result<(), GraphFault>
    requires fresh { IsFresh graph.old }
    requires fits { IsTrue (line_fits (Line.Sound name.now sound)) }
    ensures refused { Tells (line_cause graph.old.present (Line.Sound name.now sound)) result }
    ensures left { OnOk result
        (IsLeft (line_done graph.old.present (Line.Sound name.now sound)) graph.new) }
{
    let Ok(serial) = serial_named(alloc, graph, name) else {
        return Err(GraphFault::NoMemory);
    };
    if !graph.named(serial) {
        return Err(GraphFault::NotFound);
    }
    if !is_tone_row(graph, serial) {
        return Err(GraphFault::WrongKind);
    }
    let Ok(settings) = settings_of(graph, serial) else {
        return Err(GraphFault::NoMemory);
    };
    graph.has_shape();
    let _ = graph.set_input(serial, settings, sound);
    Ok(())
}

/// Whether the row of this serial is a tone.
fn is_tone_row(graph: &Graph, serial: Serial) -> bool
    ensures value { result ≡ row_passes graph.now.present (λ r. is_tone r.kind) serial }
{
    match graph.row(serial) {
        None => false,
        Some(row) => matches!(row.kind, Kind::Tone),
    }
}

/// The settings of a row.
fn settings_of(graph: &Graph, serial: Serial) -> Result<Settings, NoMemory>
    requires there { IsTrue (is_row graph.now.present serial) }
    ensures value { IfOk result
        (λ settings. IfSome (row_of graph.now.present serial) (λ row. settings ≡ row.settings)) }
{
    let Some(row) = graph.row(serial) else {
        unreachable!()
    };
    row.settings.copy()
}

/// Sets what one of the channels 1 to 63 names.
fn set_channel(
    alloc: Global,
    graph: &mut Graph,
    channel: u32,
    name: &Name,
) -> Result<(), GraphFault>
    requires fresh { IsFresh graph.old }
    requires fits { IsTrue (line_fits (Line.Channel channel name.now)) }
    ensures refused { Tells (line_cause graph.old.present (Line.Channel channel name.now)) result }
    ensures left { OnOk result
        (IsLeft (line_done graph.old.present (Line.Channel channel name.now)) graph.new) }
{
    let Ok(serial) = serial_named(alloc, graph, name) else {
        return Err(GraphFault::NoMemory);
    };
    match graph.set_channel(channel, Some(serial), None) {
        Ok(()) => Ok(()),
        Err(_) => Err(GraphFault::NotFound),
    }
}
