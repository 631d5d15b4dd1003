//! Numbers the names of a netlist's text by their first mentions, and finds what drives each.
ghost use Rattle.std.specs.Prelude.{◌≡◌, ◌<◌, ◌≤◌, [], ◌∷◌, map, length, All, IfOk, IfErr, OnOk, Some, if◌then◌else◌};
ghost use Rattle.std.specs.List.{flat_map};
ghost use Rattle.sr_model.specs.Limits.{max_pins, max_signals};
ghost use Rattle.sr_model.specs.Declaration.{declared, declarations_of, declaration_of};
ghost use Rattle.netlist.specs.Numbering.{names_of, sig_in, sig_of, driven_name, pin_names, inputs_of, outputs_of, all_pins, drivers_of, HasPinCount};
ghost use Rattle.netlist.specs.Mentions.{first_mention};
ghost use Rattle.netlist.specs.Checks.{HasFewSignals, HasFewPins, IsDrivenOnce, IsAccepted, IsRefusal};
ghost use Rattle.netlist.specs.Driving.{node_at, HoldsDrivers, AreWithin, IsLack};
ghost use Rattle.netlist.specs.Nodes.{driver_of, drivers_from, IsNodeWithin};

use crate::checks::NetRefusal;
use crate::names::NameTable;
use crate::wiring::Node;
use sr_model::{
    MAX_PINS, MAX_SIGNALS, NoMemory, Sequence, Sig, Sigs, Statement, Statements, to_bytes,
};
use std::alloc::Global;

/// The names of a text, each with its number, and what its statements say of their signals.
#[derive(Drop)]
pub(crate) struct Numbering {
    /// A signal's name, by its number.
    pub(crate) names: NameTable,
    /// What drives a signal, by its number.
    pub(crate) nodes: Vec<Node>,
    /// The pins of all statements, one after the other.
    pub(crate) pins: Vec<Sig>,
    /// In the order of INPUT lines.
    pub(crate) inputs: Vec<Sig>,
    /// In the order of first OUTPUT lines, each once.
    pub(crate) outputs: Vec<Sig>,
}

/// The names of a text, and what their mentions are the signals of.
#[derive(Drop)]
struct Mentions {
    names: NameTable,
    /// The signal that each statement mentions first.
    firsts: Vec<Sig>,
    /// The pins of all statements, one after the other.
    pins: Vec<Sig>,
}

/// The number of all pins, or as many as there may be where they are more.
fn pin_room(s: &Statements) -> usize {
    let mut count: usize = 0;
    for stated in s.as_slice() {
        count = count
            .saturating_add(pin_count(&stated.statement))
            .min(MAX_PINS);
    }
    count
}

/// The names in the order of their first mentions, up to the line with the name that is one too many, and the signals of the mentions.
fn number_names(alloc: Global, s: &Statements) -> Result<Mentions, NetRefusal>
    requires { All HasPinCount (declared s.now) }
    ensures names { IfOk result (λ m. m.names ≡ names_of (declared s.now)) }
    ensures firsts { IfOk result (λ m. m.firsts.items ≡ map (λ d. sig_in m.names (first_mention d)) (declared s.now)) }
    ensures pins { IfOk result (λ m. m.pins.items ≡ all_pins (declared s.now)) }
    ensures few { OnOk result (HasFewSignals (declared s.now)) }
    ensures refused { IfErr result (IsRefusal (declarations_of s.now)) }
{
    let mut names = NameTable::with_room(alloc, s.len().min(MAX_SIGNALS))?;
    let mut firsts = Sigs::with_room(alloc, s.len())?;
    let mut pins = Sigs::with_room(alloc, pin_room(s))?;
    for stated in s.as_slice() {
        names.add_mentions(alloc, &stated.statement, &mut firsts, &mut pins)?;
        if names.len() > MAX_SIGNALS {
            return Err(NetRefusal::TooManySignals { line: stated.line });
        }
    }
    Ok(Mentions {
        names,
        firsts: firsts.into_vec(),
        pins: pins.into_vec(),
    })
}

/// The number of the statement's pins.
fn pin_count(statement: &Statement) -> usize
    ensures { result ≡ length (pin_names (declaration_of statement.now)) }
{
    match statement {
        Statement::Input(_) | Statement::OutputOf(_) => 0,
        Statement::Drive { pins, .. } => pins.len(),
    }
}

/// Whether the pins are few enough, up to the line with which they are too many.
fn check_pins(s: &Statements) -> Result<(), NetRefusal>
    requires pin_counts { All HasPinCount (declared s.now) }
    requires few_signals { HasFewSignals (declared s.now) }
    ensures few { OnOk result (HasFewPins (declared s.now)) }
    ensures refused { IfErr result (IsRefusal (declarations_of s.now)) }
{
    let mut count = 0;
    for stated in s.as_slice() {
        count += pin_count(&stated.statement);
        if count > MAX_PINS {
            return Err(NetRefusal::TooManyPins { line: stated.line });
        }
    }
    Ok(())
}

/// Whether a statement drives the name that it mentions first.
fn is_driving(statement: &Statement) -> bool
    ensures { driven_name (declaration_of statement.now) ≡ (if result then first_mention (declaration_of statement.now) ∷ [] else []) }
{
    match statement {
        Statement::Input(_) | Statement::Drive { .. } => true,
        Statement::OutputOf(_) => false,
    }
}

/// The node of a statement whose pins begin at a place.
fn node_of(statement: &Statement, first_pin: u32) -> Node
    requires { HasPinCount (declaration_of statement.now) }
    ensures { result ≡ node_at first_pin (declaration_of statement.now) }
{
    match statement {
        Statement::Input(_) | Statement::OutputOf(_) => Node {
            kind: None,
            first_pin,
            pin_count: 0,
        },
        Statement::Drive { kind, pins, .. } => Node {
            kind: Some(*kind),
            first_pin,
            pin_count: pins.len() as u32,
        },
    }
}

/// What drives each signal, where a statement does, up to the line that drives one again.
fn drive(
    alloc: Global,
    names: &NameTable,
    firsts: &[Sig],
    s: &Statements,
) -> Result<Vec<Option<Node>>, NetRefusal>
    requires names { names.now ≡ names_of (declared s.now) }
    requires firsts { firsts.now ≡ map (λ d. sig_in names.now (first_mention d)) (declared s.now) }
    requires few_signals { HasFewSignals (declared s.now) }
    requires few_pins { HasFewPins (declared s.now) }
    requires pin_counts { All HasPinCount (declared s.now) }
    ensures drivers { IfOk result (λ nodes. HoldsDrivers (all_pins (declared s.now)) (sig_in names.now) names.now (declared s.now) nodes.items) }
    ensures within { IfOk result (λ nodes. AreWithin (length (all_pins (declared s.now))) nodes.items) }
    ensures once { OnOk result (IsDrivenOnce (declared s.now)) }
    ensures refused { IfErr result (IsRefusal (declarations_of s.now)) }
{
    let Ok(mut nodes) = vec![in alloc; None; names.len()] else {
        return Err(NetRefusal::NoMemory);
    };
    let mut first_pin = 0;
    for (i, stated) in s.as_slice().iter().enumerate() {
        if !is_driving(&stated.statement) {
            continue;
        }
        let number = firsts[i].0 as usize;
        if nodes[number].is_some() {
            return Err(NetRefusal::TwoDrivers { line: stated.line });
        }
        let node = node_of(&stated.statement, first_pin);
        nodes[number] = Some(node);
        first_pin += node.pin_count;
    }
    Ok(nodes)
}

/// The nodes of all signals, up to the first that has none.
fn settle(
    alloc: Global,
    names: &NameTable,
    nodes: &[Option<Node>],
) -> Result<Sequence<Node>, NetRefusal>
    requires { length nodes.now ≡ length names.now }
    ensures ok { IfOk result (λ all. map Some all.items ≡ nodes.now) }
    ensures refused { IfErr result (IsLack nodes.now names.now) }
{
    let mut all = Sequence::with_room(alloc, nodes.len())?;
    for (number, node) in nodes.iter().enumerate() {
        let Some(node) = node else {
            let name = to_bytes(alloc, names.get(number))?;
            return Err(NetRefusal::NoDriver { name });
        };
        all.push(*node)?;
    }
    Ok(all)
}

/// The signals of the INPUT statements, in order.
fn number_inputs(alloc: Global, firsts: &[Sig], s: &Statements) -> Result<Sigs, NoMemory>
    requires { firsts.now ≡ map (λ d. sig_of (declared s.now) (first_mention d)) (declared s.now) }
    ensures { IfOk result (λ inputs. inputs.items ≡ inputs_of (declared s.now)) }
{
    let mut inputs = Sequence::new(alloc);
    for (i, stated) in s.as_slice().iter().enumerate() {
        let Statement::Input(_) = &stated.statement else {
            continue;
        };
        inputs.push(firsts[i])?;
    }
    Ok(inputs)
}

/// The signals of the OUTPUT statements, each where its first one stands.
fn number_outputs(
    alloc: Global,
    names: &NameTable,
    firsts: &[Sig],
    s: &Statements,
) -> Result<Sigs, NoMemory>
    requires names { names.now ≡ names_of (declared s.now) }
    requires firsts { firsts.now ≡ map (λ d. sig_in names.now (first_mention d)) (declared s.now) }
    ensures { IfOk result (λ outputs. outputs.items ≡ outputs_of (declared s.now)) }
{
    let mut outputs = Sequence::new(alloc);
    let Ok(mut listed) = vec![in alloc; false; names.len()] else {
        return Err(NoMemory);
    };
    for (i, stated) in s.as_slice().iter().enumerate() {
        let Statement::OutputOf(_) = &stated.statement else {
            continue;
        };
        let sig = firsts[i];
        let number = sig.0 as usize;
        if listed[number] {
            continue;
        }
        listed[number] = true;
        outputs.push(sig)?;
    }
    Ok(outputs)
}

/// Numbers the names of a text by their first mentions, and finds what drives each signal.
///
/// The rules are tried one after the other, each over all statements. It looks up each mention once, and a new name once more to put it in. It takes
/// room for as many names as there are statements, memory for a new name's bytes, and four bytes a mention. The statements are given back before the
/// last rule is tried. The time is linear in the bytes of the text, unless names were made to collide.
pub(crate) fn number(alloc: Global, s: Statements) -> Result<Numbering, NetRefusal>
    requires { All HasPinCount (declared s) }
    ensures accepted { OnOk result (IsAccepted (declared s)) }
    ensures names { IfOk result (λ n. n.names ≡ names_of (declared s)) }
    ensures drivers { IfOk result (λ n. drivers_from n.pins.items n.nodes.items ≡ drivers_of (declared s)) }
    ensures inputs { IfOk result (λ n. n.inputs.items ≡ inputs_of (declared s)) }
    ensures outputs { IfOk result (λ n. n.outputs.items ≡ outputs_of (declared s)) }
    ensures signals { IfOk result (λ n. (length n.nodes.items ≡ length n.names) × (length n.names ≤ max_signals)) }
    ensures pins { IfOk result (λ n. (length n.pins.items ≤ max_pins) × All (λ pin. pin.0 < length n.names) n.pins.items) }
    ensures nodes { IfOk result (λ n. All (IsNodeWithin (length n.pins.items)) n.nodes.items) }
    ensures refused { IfErr result (IsRefusal (declarations_of s)) }
{
    let mentions = number_names(alloc, &s)?;
    check_pins(&s)?;
    let driven = drive(alloc, &mentions.names, &mentions.firsts, &s)?;
    let inputs = number_inputs(alloc, &mentions.firsts, &s)?.into_vec();
    let outputs = number_outputs(alloc, &mentions.names, &mentions.firsts, &s)?.into_vec();
    drop(s);
    let nodes = settle(alloc, &mentions.names, driven.as_slice())?.into_vec();
    Ok(Numbering {
        names: mentions.names,
        nodes,
        pins: mentions.pins,
        inputs,
        outputs,
    })
}
