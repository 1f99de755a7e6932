// For the programs of test vectors: a script played over a store, command by command.
use crate::kit::{large_buffer, read_full};
use crate::text_player::play_text;
use crate::{changes, reads};
use std::io::{self, BufWriter, Write};
use vectors_print::dump;
use vectors_print::out::Out;
use vectors_script::command::{Call, Changing, Command, Reading, Round};
use vectors_script::rounds;
use vectors_script::store::Store;
use vectors_script::text::{self, Step};

// What a program plays of a script.
#[derive(Clone, Copy, Drop)]
pub enum Plays {
    // Reading calls alone, over as much of a store as there is room for.
    Reads,
    // Every call and print, but none over a store that there is no room for.
    All,
}

// What is played, the script's last label, and where each call's line goes. The store that was laid out is lent to each step: within this struct it would
// take its room in the stack twice.
#[derive(Drop)]
struct Player<'s> {
    plays: Plays,
    label: &'s [u8],
    out: Out,
}

impl<'s> Player<'s> {
    // A reading call's line.
    fn read(&mut self, store: &Store, call: Reading) {
        self.out.bytes(self.label);
        self.out.print(format_args!(": {call} ->"));
        reads::print_call(&mut self.out, call, store);
    }

    // A changing call's line.
    fn change(&mut self, store: &mut Store, call: Changing) {
        self.out.bytes(self.label);
        self.out.print(format_args!(": {call} ->"));
        changes::print_call(&mut self.out, call, store);
    }

    // Whether the program runs such a call over the store that was laid out.
    fn runs(&self, store: &Store, call: Call) -> bool {
        match self.plays {
            Plays::Reads => matches!(call, Call::Read(_)),
            Plays::All => store.has_room(),
        }
    }

    // A call's line, or the lines of what is printed of the store.
    fn call(&mut self, store: &mut Store, call: Call) {
        if !self.runs(store, call) {
            return;
        }
        match call {
            Call::Read(reading) => self.read(store, reading),
            Call::Change(changing) => self.change(store, changing),
            Call::Print(printing) => dump::print_call(&mut self.out, self.label, printing, store),
        }
    }

    // Calls, one after the other.
    fn call_all(&mut self, store: &mut Store, calls: &[Call]) {
        for call in calls {
            self.call(store, *call);
        }
    }

    // The calls of a round.
    fn round(&mut self, store: &mut Store, round: Round) {
        match round {
            Round::Beyond(root) => self.call_all(store, &rounds::beyond(root)),
            Round::Reading(root) => self.call_all(store, &rounds::reading(root)),
            Round::ReadingAndAudit(root) => {
                self.call_all(store, &rounds::reading(root));
                self.call(store, Call::Read(Reading::Audit));
            }
            Round::Changing(root) => self.call_all(store, &rounds::changing(root)),
            Round::CreateAndChanging(root) => {
                self.call(store, Call::Change(Changing::Create));
                self.call_all(store, &rounds::changing(root));
            }
        }
    }

    // A command lays something out, or is carried out over the store that was.
    fn carry_out(&mut self, store: &mut Store, command: Command) {
        match command {
            Command::Lay(layout) => store.lay(layout),
            Command::Call(call) => self.call(store, call),
            Command::Round(round) => self.round(store, round),
        }
        self.out.flush();
    }

    // Each turn takes a byte of the script or more.
    fn play(&mut self, store: &mut Store, script: &'s [u8]) {
        let mut rest = script;
        for _ in 0..script.len() {
            let Some((step, behind)) = text::next(rest) else {
                break;
            };
            match step {
                Step::Label(label) => self.label = label,
                Step::Command(command) => self.carry_out(store, command),
                Step::Nothing => {}
            }
            rest = behind;
        }
    }
}

// Plays the script that is the input, whole, to the runtime's output: text, with a line for each label and comment, and two spaces between commands. What
// can't be read, held or printed is an error.
pub fn play<R: Input + Print + AllocGlobal>(rt: &R) -> io::Result<()> {
    let text = io::read_to_string(rt.alloc(), rt.reader())?;
    let mut out = BufWriter::new(rt.alloc(), io::writer(rt))?;
    play_text(text.as_str(), &mut out)?;
    out.flush()
}

// Plays the script that is the input, or the first 65,536 bytes of it: what a program of test vectors does. Each call is one printed line. Before the
// first label a line begins with the script's own first line.
pub fn play_input(plays: Plays) {
    let mut buffer = large_buffer();
    let count = read_full(0, &mut buffer);
    let script = &buffer[..count];
    let mut store = Store::new();
    let mut player = Player {
        plays,
        label: text::line(script),
        out: Out::new(),
    };
    player.play(&mut store, script);
}
