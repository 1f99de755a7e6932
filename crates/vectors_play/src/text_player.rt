// A script in text, played over a store of its own, line by line, to any writer.
use crate::{changes, reads};
use std::io::{self, Write};
use vectors_print::dump;
use vectors_script::command::{Call, Changing, Command, Reading, Round};
use vectors_script::rounds;
use vectors_script::store::Store;

// The store that was laid out, the script's last label, and where each call's line goes.
#[derive(Drop)]
struct TextPlayer<'s, 'o, W> {
    store: Store,
    label: &'s str,
    out: &'o mut W,
}

impl<'s, W: Write> TextPlayer<'s, '_, W> {
    // A reading call's line.
    fn read(&mut self, call: Reading) -> io::Result<()> {
        let label = self.label;
        write!(self.out, "{label}: {call} ->")?;
        reads::call(self.out, call, &self.store)?;
        writeln!(self.out)
    }

    // A changing call's line.
    fn change(&mut self, call: Changing) -> io::Result<()> {
        let label = self.label;
        write!(self.out, "{label}: {call} ->")?;
        changes::call(self.out, call, &mut self.store)?;
        writeln!(self.out)
    }

    // A call's line, or the lines of what is printed of the store.
    fn call(&mut self, call: Call) -> io::Result<()> {
        match call {
            Call::Read(reading) => self.read(reading),
            Call::Change(changing) => self.change(changing),
            Call::Print(printing) => dump::call(self.out, self.label, printing, &self.store),
        }
    }

    // Calls, one after the other.
    fn call_all(&mut self, calls: &[Call]) -> io::Result<()> {
        for call in calls {
            self.call(*call)?;
        }
        Ok(())
    }

    // The calls of a round.
    fn round(&mut self, round: Round) -> io::Result<()> {
        match round {
            Round::Beyond(root) => self.call_all(&rounds::beyond(root)),
            Round::Reading(root) => self.call_all(&rounds::reading(root)),
            Round::ReadingAndAudit(root) => {
                self.call_all(&rounds::reading(root))?;
                self.read(Reading::Audit)
            }
            Round::Changing(root) => self.call_all(&rounds::changing(root)),
            Round::CreateAndChanging(root) => {
                self.change(Changing::Create)?;
                self.call_all(&rounds::changing(root))
            }
        }
    }

    // A command lays something out, or is carried out over the store that was.
    fn carry_out(&mut self, command: Command) -> io::Result<()> {
        match command {
            Command::Lay(layout) => {
                self.store.lay(layout);
                Ok(())
            }
            Command::Call(call) => self.call(call),
            Command::Round(round) => self.round(round),
        }
    }

    // A line is a label, a comment, or commands with two spaces between them; what is no command is left out.
    fn line(&mut self, line: &'s str) -> io::Result<()> {
        if let Some(label) = line.strip_prefix("= ") {
            self.label = label;
        } else if !line.starts_with('#') {
            for command in line.split("  ").filter_map(Command::parse) {
                self.carry_out(command)?;
            }
        }
        Ok(())
    }
}

// Plays a script: each call is one printed line.
pub fn play_text<W: Write>(text: &str, out: &mut W) -> io::Result<()> {
    let mut player = TextPlayer {
        store: Store::new(),
        label: "",
        out,
    };
    for line in text.lines() {
        player.line(line)?;
    }
    Ok(())
}
