//! What tells a stream of long work while it goes on.

ghost use Rattle.std.specs.Prelude.{◌≡◌, ◌&&◌, false, true};
ghost use Rattle.top_run.specs.Progress.{GetsLine};
ghost use Rattle.top_run.specs.Seen.{sink_with};
ghost use Rattle.top_status.specs.Events.{event_line};
ghost use Rattle.top_status.specs.declared.message.event.Event.TheVariants.{Pivots, Round, Turn};

use base_files::Sink;
use base_watch::Watch;
use top_status::{Event, event_line};

/// A watch that tells a stream: a line where a round begins, where a turn of it begins after the first, and at each further thousand
/// pivots of a problem (docs/FORMATS.md, "Progress").
#[derive(Drop)]
pub struct Teller<G: Sink + Drop> {
    /// What gets the lines. What it answers to a put changes nothing.
    pub stream: G,
    /// Whether each line stands in place of the line before it, as on a terminal.
    pub rewrites: bool,
    /// Whether a line was told.
    pub has_told: bool,
    /// The round that has begun, from 1; 0 before the first.
    pub round: u32,
    /// The turn of it that has begun, from 0.
    pub turn: u32,
}

impl<G: Sink + Drop> Teller<G> {
    /// A watch that has told nothing yet.
    pub fn new(stream: G, rewrites: bool) -> Teller<G>
        ensures stream { result.stream ≡ stream }
        ensures rewrites { result.rewrites ≡ rewrites }
        ensures fresh { result.has_told ≡ false }
    {
        Teller {
            stream,
            rewrites,
            has_told: false,
            round: 0,
            turn: 0,
        }
    }

    // Whether the next line stands in place of the one before it.
    fn wipes(&self) -> bool
        ensures { result ≡ (self.now.rewrites && self.now.has_told) }
    {
        self.rewrites && self.has_told
    }

    // Tells an event.
    fn tell(&mut self, event: Event)
        ensures line { GetsLine (event_line (self.old.rewrites && self.old.has_told) event)
            (sink_with (G.held self.old.stream) (G.taken self.old.stream) (G.faults self.old.stream) (G.spare self.old.stream))
            (sink_with (G.held self.new.stream) (G.taken self.new.stream) (G.faults self.new.stream) (G.spare self.new.stream)) }
        ensures told { self.new.has_told ≡ true }
        ensures way { self.new.rewrites ≡ self.old.rewrites }
        ensures place { (self.new.round ≡ self.old.round) × (self.new.turn ≡ self.old.turn) }
    {
        let line = event_line(event, self.wipes());
        let _ = self.stream.put(line.bytes());
        self.has_told = true;
    }
}

impl<G: Sink + Drop> Watch for Teller<G> {
    fn round(&mut self, number: u32, raised: u32)
        ensures line { GetsLine (event_line (self.old.rewrites && self.old.has_told) (Round number raised))
            (sink_with (G.held self.old.stream) (G.taken self.old.stream) (G.faults self.old.stream) (G.spare self.old.stream))
            (sink_with (G.held self.new.stream) (G.taken self.new.stream) (G.faults self.new.stream) (G.spare self.new.stream)) }
        ensures place { (self.new.round ≡ number) × (self.new.turn ≡ 0) }
    {
        self.round = number;
        self.turn = 0;
        self.tell(Event::Round { number, raised });
    }

    fn turn(&mut self, number: u32)
        ensures first { number ≡ 0 → self.new.stream ≡ self.old.stream }
        ensures later { (number ≡ 0 → ⊥) → GetsLine (event_line (self.old.rewrites && self.old.has_told) (Turn self.old.round number))
            (sink_with (G.held self.old.stream) (G.taken self.old.stream) (G.faults self.old.stream) (G.spare self.old.stream))
            (sink_with (G.held self.new.stream) (G.taken self.new.stream) (G.faults self.new.stream) (G.spare self.new.stream)) }
        ensures place { (self.new.round ≡ self.old.round) × (self.new.turn ≡ number) }
    {
        self.turn = number;
        if number > 0 {
            let round = self.round;
            self.tell(Event::Turn { round, number });
        }
    }

    fn pivots(&mut self, made: u32)
        ensures line { GetsLine (event_line (self.old.rewrites && self.old.has_told) (Pivots self.old.round self.old.turn made))
            (sink_with (G.held self.old.stream) (G.taken self.old.stream) (G.faults self.old.stream) (G.spare self.old.stream))
            (sink_with (G.held self.new.stream) (G.taken self.new.stream) (G.faults self.new.stream) (G.spare self.new.stream)) }
        ensures place { (self.new.round ≡ self.old.round) × (self.new.turn ≡ self.old.turn) }
    {
        let event = Event::Pivots {
            round: self.round,
            turn: self.turn,
            made,
        };
        self.tell(event);
    }
}
