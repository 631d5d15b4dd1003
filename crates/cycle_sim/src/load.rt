//! Makes the statements of large netlists from numbers.
ghost use Rattle.std.specs.Prelude.{ℕ, ◌≡◌, ◌<◌, ◌≤◌, ◌+◌, ◌/◌, ◌^◌, [], ◌∷◌, ◌++◌, length, map, All, IfOk, OnOk};
ghost use Rattle.std.specs.List.{range_with_len};
ghost use Rattle.sr_model.specs.Declaration.{InputNamed, declaration_of, declared};
ghost use Rattle.sr_model.specs.Room.{texts};
ghost use Rattle.netlist.specs.Circuit.{IsNetlist};
ghost use Rattle.netlist.specs.Numbering.{IsStatement, drivers_of};
ghost use Rattle.netlist.specs.Wiring.{flip_flops};
ghost use Rattle.cycle_sim.specs.Load.{IsLoadSize, AreOnLines, KeepsAllRules, load_name, load_statements, load_gate, load_flip_flop, input_count, flip_flop_count, gate_count, kind_drawn, drawn_pin_count, pins_drawn, drawn_driver, drawn_gate, gate_words, gate_start};
ghost use Rattle.cycle_sim.specs.Words.{generator_at};

use rand_pcg::Lcg64Xsh32;
use rand_pcg::rand_core::utils::NextWord;
use sr_model::{Bytes, Kind, Names, NoMemory, Numbered, Statement, Statements};
use std::alloc::{AllocError, Global};
use std::marker::Model;

/// The kinds of gate, by the remainder that draws them.
const GATE_KINDS: [Kind; 8] = [
    Kind::And,
    Kind::Nand,
    Kind::Or,
    Kind::Nor,
    Kind::Xor,
    Kind::Xnor,
    Kind::Not,
    Kind::Buf,
];

/// The statements of a netlist with so many signals, drawn from the number by PCG's 32-bit generator with the number as its seed and stream 2.
///
/// A sixteenth of the signals are inputs and an eighth are flip-flops, rounded down; the others are gates with one pin or two. The names are
/// `n0`, `n1` and so on: the inputs, then the flip-flops, then the gates. Time and memory are linear in the signals.
pub fn load_netlist(alloc: Global, number: u64, signals: u32) -> Result<Statements, NoMemory>
    requires { IsLoadSize signals }
    ensures statements { IfOk result (AreOnLines (load_statements number signals)) }
    ensures each { IfOk result (λ s. All IsStatement (declared s)) }
    ensures netlist { IfOk result (λ s. IsNetlist (declared s)) }
    ensures accepted { IfOk result KeepsAllRules }
    ensures signals { IfOk result (λ s. length (drivers_of (declared s)) ≡ signals) }
    ensures flip_flops { IfOk result (λ s. length (flip_flops (drivers_of (declared s))) ≡ signals / 8) }
{
    let mut generator = Lcg64Xsh32::new(number, 2);
    let mut lines = Lines::with_room(alloc, signals as usize + 1)?;
    push_inputs(alloc, signals, &mut lines)?;
    push_gates(alloc, signals, &mut generator, &mut lines)?;
    push_flip_flops(alloc, signals, &mut generator, &mut lines)?;
    lines.push(Statement::OutputOf(to_name(alloc, signals - 1)?))?;
    Ok(lines.into_statements())
}

/// Adds the inputs, by ascending index.
fn push_inputs(alloc: Global, signals: u32, lines: &mut Lines) -> Result<(), NoMemory>
    requires { length lines.old + signals ≤ 2 ^ 32 }
    ensures { OnOk result (lines.new ≡ lines.old ++ map (λ i. InputNamed (load_name i)) (range_with_len 0 (input_count signals))) }
{
    for i in 0..signals / 16 {
        lines.push(Statement::Input(to_name(alloc, i)?))?;
    }
    Ok(())
}

/// Draws the gates, by ascending index, and adds them.
fn push_gates(
    alloc: Global,
    signals: u32,
    generator: &mut Lcg64Xsh32,
    lines: &mut Lines,
) -> Result<(), NoMemory>
    requires size { IsLoadSize signals }
    requires room { length lines.old + signals ≤ 2 ^ 32 }
    ensures lines { (number : ℕ) → generator.old ≡ generator_at 2 number 0 → OnOk result (lines.new ≡ lines.old ++ map (load_gate number signals) (range_with_len 0 (gate_count signals))) }
    ensures words { (number : ℕ) → generator.old ≡ generator_at 2 number 0 → OnOk result (generator.new ≡ generator_at 2 number (gate_start number (gate_count signals))) }
{
    let first = signals / 16 + signals / 8;
    for i in 0..signals - first {
        lines.push(draw_gate(alloc, first + i, generator)?)?;
    }
    Ok(())
}

/// Draws the flip-flops, by ascending index, and adds them.
fn push_flip_flops(
    alloc: Global,
    signals: u32,
    generator: &mut Lcg64Xsh32,
    lines: &mut Lines,
) -> Result<(), NoMemory>
    requires size { IsLoadSize signals }
    requires room { length lines.old + signals ≤ 2 ^ 32 }
    ensures { (number : ℕ) → generator.old ≡ generator_at 2 number (gate_start number (gate_count signals)) → OnOk result (lines.new ≡ lines.old ++ map (load_flip_flop number signals) (range_with_len 0 (flip_flop_count signals))) }
{
    let first = signals / 16;
    for i in 0..signals / 8 {
        lines.push(draw_driver(alloc, first + i, Kind::Dff, signals, generator)?)?;
    }
    Ok(())
}

/// Draws the gate of a signal, by its index.
fn draw_gate(alloc: Global, index: u32, generator: &mut Lcg64Xsh32) -> Result<Statement, NoMemory>
    requires { 0 < index }
    ensures gate { (number n : ℕ) → generator.old ≡ generator_at 2 number n → IfOk result (λ s. declaration_of s ≡ drawn_gate number n index) }
    ensures words { (number n : ℕ) → generator.old ≡ generator_at 2 number n → OnOk result (generator.new ≡ generator_at 2 number (n + gate_words number n)) }
{
    let kind = kind_drawn(generator.next_word());
    draw_driver(alloc, index, kind, index, generator)
}

/// A gate or flip-flop of a signal, by its index, with pins drawn among the signals with indexes below a bound.
fn draw_driver(
    alloc: Global,
    index: u32,
    kind: Kind,
    bound: u32,
    generator: &mut Lcg64Xsh32,
) -> Result<Statement, NoMemory>
    requires { 0 < bound }
    ensures driver { (number n : ℕ) → generator.old ≡ generator_at 2 number n → IfOk result (λ s. declaration_of s ≡ drawn_driver number n bound kind index) }
    ensures words { (number n : ℕ) → generator.old ≡ generator_at 2 number n → OnOk result (generator.new ≡ generator_at 2 number (n + drawn_pin_count kind)) }
{
    let target = to_name(alloc, index)?;
    let pins = draw_pins(alloc, pin_count(kind), bound, generator)?;
    Ok(Statement::Drive { target, kind, pins })
}

/// Draws the names of so many signals with indexes below a bound.
fn draw_pins(
    alloc: Global,
    count: usize,
    bound: u32,
    generator: &mut Lcg64Xsh32,
) -> Result<Names, NoMemory>
    requires { 0 < bound }
    ensures pins { (number n : ℕ) → generator.old ≡ generator_at 2 number n → IfOk result (λ pins. texts pins ≡ pins_drawn number n count bound) }
    ensures words { (number n : ℕ) → generator.old ≡ generator_at 2 number n → OnOk result (generator.new ≡ generator_at 2 number (n + count)) }
{
    let mut pins = Names::with_room(alloc, count)?;
    for _ in 0..count {
        pins.push(to_name(alloc, generator.next_word() % bound)?)?;
    }
    Ok(pins)
}

/// The kind of gate that a word draws.
fn kind_drawn(word: u32) -> Kind
    ensures { result ≡ kind_drawn word }
{
    GATE_KINDS[(word % 8) as usize]
}

/// How many pins are drawn for a kind.
fn pin_count(kind: Kind) -> usize
    ensures { result ≡ drawn_pin_count kind }
{
    match kind {
        Kind::Not | Kind::Buf | Kind::Dff => 1,
        _ => 2,
    }
}

/// The name of the signal with this index.
fn to_name(alloc: Global, index: u32) -> Result<Bytes, NoMemory>
    ensures { IfOk result (λ name. name.items ≡ load_name index) }
{
    match format!(in alloc; "n{index}") {
        Ok(name) => Ok(Bytes::from_vec(name.into_bytes())),
        Err(AllocError) => Err(NoMemory),
    }
}

/// Statements in order, each on a line of its own from line 1; contracts see what they declare.
#[derive(Drop)]
struct Lines {
    statements: Statements,
}

impl Model for Lines {
    ghost use Rattle.std.specs.Prelude.{List};
    ghost use Rattle.sr_model.specs.Declaration.{Declaration, declared};
    ghost use Rattle.cycle_sim.specs.Load.{AreOnLines};

    ghost Value = { List Declaration };

    ghost view = { λ lines. declared lines.statements };

    ghost invariant = { λ lines. AreOnLines (declared lines.statements) lines.statements };
}

impl Lines {
    /// No lines, with room for so many.
    fn with_room(alloc: Global, room: usize) -> Result<Lines, NoMemory>
        ensures { IfOk result (λ lines. lines ≡ []) }
    {
        let statements = Statements::with_room(alloc, room)?;
        Ok(Lines { statements })
    }

    /// Adds a statement on the next line.
    fn push(&mut self, statement: Statement) -> Result<(), NoMemory>
        requires { length self.old < 2 ^ 32 }
        ensures { OnOk result (self.new ≡ self.old ++ declaration_of statement ∷ []) }
    {
        let line = self.statements.len() as u64 + 1;
        self.statements.push(Numbered { line, statement })
    }

    /// The statements.
    fn into_statements(self) -> Statements
        ensures { AreOnLines self result }
    {
        self.statements
    }
}
