//! A sink that keeps all that it takes.

ghost use Rattle.std.specs.Prelude.{◌≡◌, ◌<◌, ◌≤◌, ◌^◌, ◌+◌, ◌++◌, ℕ, [], Some, Ok, min, length, take, IfOk, OnOk, OnErr};
ghost use Rattle.span_text.specs.Streams.{Rose, Grows, Keeps};
ghost use Rattle.span_text.specs.Memory.{counted};
ghost use Rattle.bash2sh.specs.Gathered.{Gathered};

use span_text::{Failed, Sink, Text};
use std::alloc::Global;
use std::marker::Model;

/// A text that grows by what is written. A write fails where memory is missing.
#[derive(Debug, Drop)]
pub struct TextSink {
    text: Text,
    faults: u64,
}

impl Model for TextSink {
    ghost use Rattle.bash2sh.specs.Gathered.{Gathered};

    ghost Value = { Gathered };

    ghost view = { λ s. record { text = s.text; faults = s.faults } };
}

impl TextSink {
    /// The sink that has taken nothing. It takes no memory.
    pub fn new(alloc: Global) -> TextSink
        ensures { result ≡ record { text = []; faults = 0 } }
    {
        TextSink {
            text: Text::new(alloc),
            faults: 0,
        }
    }

    /// What was written.
    pub fn into_text(self) -> Text
        ensures { result ≡ self.text }
    {
        let TextSink { text, faults: _ } = self;
        text
    }
}

impl Sink for TextSink {
    ghost held = { λ s. Some s.text };

    ghost faults = { λ s. s.faults };

    fn write(&mut self, piece: &[u8]) -> Result<usize, Failed>
        ensures within { IfOk result (λ n. n ≤ length piece.now) }
        ensures some { result ≡ Ok 0 → piece.now ≡ [] }
        ensures appended { IfOk result (λ n. Grows (Some self.old.text) (Some self.new.text) (take n piece.now)) }
        ensures unchanged { OnErr result (Keeps (Some self.old.text) (Some self.new.text)) }
        ensures failed { OnErr result (Rose self.old.faults self.new.faults) }
        ensures never_falls { self.old.faults ≤ self.new.faults }

        // It takes the whole piece.
        ensures ok { OnOk result ((result ≡ Ok (length piece.now)) × (self.new ≡ record self.old { text = self.old.text ++ piece.now })) }
        ensures err { OnErr result (self.new ≡ record self.old { faults = counted self.old.faults }) }
    {
        match self.text.append(piece) {
            Ok(()) => Ok(piece.len()),
            Err(_) => {
                self.faults = self.faults.saturating_add(1);
                Err(Failed {})
            }
        }
    }
}
