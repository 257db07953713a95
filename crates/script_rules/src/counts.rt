//! What the lines of a script so far count.
ghost use Rattle.std.specs.Prelude.{◌≡◌, ◌≤◌, ◌-◌, ◌++◌, ◌∷◌, [], suc, length, None, Some, IfOk, IfErr};
ghost use Rattle.run_data.specs.declared.command.Command.TheVariants.{Discard};
ghost use Rattle.script_words.specs.Tables.{first_code};
ghost use Rattle.script_rules.specs.Rules.{own_rules, rules};
ghost use Rattle.script_rules.specs.Counted.{AreCounts, commands_before};
ghost use Rattle.script_rules.specs.declared.told.Told.{Told};

use crate::distributions::distribution_of;
use crate::flips::flip_code;
use crate::routines::routine_code;
use crate::rules::{
    field_code, grid_code, grid_shape, is_list, is_matrix, links_code, list_code, lose_code,
    matrix_code, matrix_words, order_code, print_code, pverify_code, spares_code, topology_code,
};
use crate::told::Told;
use run_data::{Command, Script};

/// What the lines of a script so far count: those before a line.
#[derive(Clone, Copy)]
pub struct Counts {
    /// The ranks of all grids.
    pub ranks: u32,
    /// The `matrix` lines.
    pub matrices: u32,
    /// The matrices that were dropped.
    pub dropped: u32,
    /// The `pgetrf` lines, each of which makes a pivot list.
    pub lists: u32,
    /// The pivot lists that were dropped.
    pub dropped_lists: u32,
    /// The words of the matrices that `print` lines name, together.
    pub printed: u64,
    /// The `links` lines.
    pub links: u32,
    /// The `spares` lines.
    pub spares: u32,
    /// The `field` lines.
    pub fields: u32,
    /// The modulus of the field.
    pub modulus: u32,
    /// The numbers of all `order` lines.
    pub ordered: u32,
}

impl Counts {
    /// What no lines count.
    pub fn new() -> Counts
        ensures { AreCounts result 0 [] }
    {
        Counts {
            ranks: 0,
            matrices: 0,
            dropped: 0,
            lists: 0,
            dropped_lists: 0,
            printed: 0,
            links: 0,
            spares: 0,
            fields: 0,
            modulus: 65537,
            ordered: 0,
        }
    }

    // The code of the first broken rule of a command of the script's own on a line of a script, or on its next one, which tells `told` as a whole.
    fn own_code(self, told: Told, script: &Script, line: u32, command: &Command) -> Option<i32>
        requires some { 1 ≤ line }
        requires within { line ≤ suc (length script.now) }
        requires counts { AreCounts self (line - 1) (commands_before script.now line) }
        ensures { result ≡ first_code (own_rules told (commands_before script.now line) line command.now) }
    {
        match command {
            Command::Grid { p, q, f, .. } => grid_code(self.ranks, *p, *q, *f),
            Command::Matrix {
                grid,
                m,
                n,
                mb,
                nb,
                rsrc,
                csrc,
                ..
            } => {
                let (p, q) = grid_shape(script, line, grid.bytes());
                let live = self.matrices.saturating_sub(self.dropped);
                matrix_code(live, self.matrices, p, q, *m, *n, *mb, *nb, *rsrc, *csrc)
            }
            Command::Pgetrf { .. } => {
                let live = self.lists.saturating_sub(self.dropped_lists);
                list_code(live)
            }
            Command::Print { name } => {
                print_code(self.printed, matrix_words(script, line, name.bytes()))
            }
            Command::Topology { kind } => topology_code(kind.bytes()),
            Command::Links { n } => links_code(self.links, *n),
            Command::Order { numbers } => order_code(self.ordered, numbers),
            Command::Lose { rank, .. } => lose_code(told.ranks, *rank),
            Command::Spares { n } => spares_code(self.spares, *n),
            Command::Field { n } => field_code(self.fields, self.matrices, *n),
            Command::Flip { name, i, j, x } => {
                let a = distribution_of(script, line, name.bytes());
                flip_code(self.modulus, script, line, name.bytes(), a, *i, *j, *x)
            }
            Command::Pverify { name } => pverify_code(distribution_of(script, line, name.bytes())),
            _ => None,
        }
    }

    // The counts with the thing of a name dropped on a line of a script, or on its next one.
    fn without(self, script: &Script, line: u32, name: &[u8]) -> Counts
        requires some { 1 ≤ line }
        requires within { line ≤ suc (length script.now) }
        requires counts { AreCounts self (line - 1) (commands_before script.now line) }
        ensures { AreCounts result line (commands_before script.now line ++ record { line = line; command = Discard name.now } ∷ []) }
    {
        if is_matrix(script, line, name) {
            return Counts {
                dropped: self.dropped + 1,
                ..self
            };
        }
        if is_list(script, line, name) {
            return Counts {
                dropped_lists: self.dropped_lists + 1,
                ..self
            };
        }
        self
    }

    // The counts with one more command, which breaks no rule, on a line of a script, or on its next one.
    fn with(self, script: &Script, line: u32, command: &Command) -> Counts
        requires some { 1 ≤ line }
        requires within { line ≤ suc (length script.now) }
        requires counts { AreCounts self (line - 1) (commands_before script.now line) }
        requires kept { (told : Told) × (first_code (own_rules told (commands_before script.now line) line command.now) ≡ None) }
        ensures { AreCounts result line (commands_before script.now line ++ record { line = line; command = command.now } ∷ []) }
    {
        match command {
            Command::Grid { p, q, f, .. } => Counts {
                ranks: self.ranks + *p * (*q + *f),
                ..self
            },
            Command::Matrix { .. } => Counts {
                matrices: self.matrices + 1,
                ..self
            },
            Command::Pgetrf { .. } => Counts {
                lists: self.lists + 1,
                ..self
            },
            Command::Print { name } => Counts {
                printed: self.printed + matrix_words(script, line, name.bytes()),
                ..self
            },
            Command::Discard { name } => self.without(script, line, name.bytes()),
            Command::Links { .. } => Counts {
                links: self.links + 1,
                ..self
            },
            Command::Spares { .. } => Counts {
                spares: self.spares + 1,
                ..self
            },
            Command::Field { n } => Counts {
                fields: self.fields + 1,
                modulus: *n,
                ..self
            },
            Command::Order { numbers } => Counts {
                ordered: self.ordered + numbers.len(),
                ..self
            },
            _ => self,
        }
    }

    /// The counts after one more command on a line of a script, or on its next one, which tells `told` as a whole, or the code of the first of its
    /// rules that it breaks.
    pub fn after(
        self,
        told: Told,
        script: &Script,
        line: u32,
        command: &Command,
    ) -> Result<Counts, i32>
        requires some { 1 ≤ line }
        requires within { line ≤ suc (length script.now) }
        requires counts { AreCounts self (line - 1) (commands_before script.now line) }
        ensures kept { IfOk result (λ _. first_code (rules told (commands_before script.now line) line command.now) ≡ None) }
        ensures counted { IfOk result (λ counts. AreCounts counts line (commands_before script.now line ++ record { line = line; command = command.now } ∷ [])) }
        ensures broken { IfErr result (λ code. first_code (rules told (commands_before script.now line) line command.now) ≡ Some code) }
    {
        if let Some(code) = routine_code(self.modulus, script, line, command) {
            return Err(code);
        }
        match self.own_code(told, script, line, command) {
            Some(code) => Err(code),
            None => Ok(self.with(script, line, command)),
        }
    }
}
