//! The numbers of traces.

ghost use Rattle.std.specs.Prelude.{◌≡◌, [], IfOk, IsTrue, OnOk, Some, map, slice_get};
ghost use Rattle.cert_written.specs.Bare.{bare_trace};
ghost use Rattle.cert_text.specs.Naming.{is_listed, number_in, spelt_trace, trace_text, with_trace};

use crate::trace::trace_value;
use cert_written::{Trace, copied};
use indexmap::IndexSet;
use std::alloc::{AllocError, Global};
use std::marker::Model;

/// Traces, each once, numbered from 0. Two traces are one where they are the same without zeros.
#[derive(Drop)]
pub(crate) struct Numbering {
    alloc: Global,
    texts: IndexSet<Vec<u8>>,
    list: Vec<Trace>,
}

impl Model for Numbering {
    ghost use Rattle.std.specs.Prelude.{◌≡◌, List, map};
    ghost use Rattle.cert_written.specs.declared.trace.Trace.{Trace};
    ghost use Rattle.cert_text.specs.Naming.{AreSpelt, texts_of, trace_text};

    ghost Value = { List Trace };

    ghost view = { λ n. n.list.items };

    ghost invariant = { λ n. (texts_of n.texts.keys ≡ map trace_text n.list.items) × AreSpelt n.list.items };
}

impl Numbering {
    /// No traces.
    pub(crate) fn new(alloc: Global) -> Self
        ensures { result ≡ [] }
    {
        Numbering {
            alloc,
            texts: IndexSet::new(alloc),
            list: Vec::new(alloc),
        }
    }

    /// The traces in order.
    pub(crate) fn as_slice(&self) -> &[Trace]
        ensures { result.now ≡ self.now }
    {
        self.list.as_slice()
    }

    // The text of a trace.
    fn text(&self, trace: &Trace) -> Result<Vec<u8>, AllocError>
        ensures text { IfOk result (λ text. text.items ≡ trace_text trace.now) }
        ensures spelt { IfOk result (λ _. spelt_trace (trace_text trace.now) ≡ Some (bare_trace trace.now)) }
    {
        let value = trace_value(self.alloc, self, trace)?;
        value.to_vec(self.alloc)
    }

    /// The number of a trace that is there, which is found at it without its zeros.
    pub(crate) fn number(&self, trace: &Trace) -> Result<usize, AllocError>
        requires { IsTrue (is_listed self.now trace.now) }
        ensures number { IfOk result (λ n. n ≡ number_in self.now trace.now) }
        ensures back { IfOk result (λ _. slice_get (map bare_trace self.now) (number_in self.now trace.now) ≡ Some (bare_trace trace.now)) }
    {
        let text = self.text(trace)?;
        Ok(self.texts.get_index_of(text.as_slice()).unwrap())
    }

    /// Adds a trace at the end, unless it is there.
    pub(crate) fn add(&mut self, trace: &Trace) -> Result<(), AllocError>
        ensures { OnOk result (self.new ≡ with_trace self.old trace.now) }
    {
        let text = self.text(trace)?;
        if self.texts.contains(text.as_slice()) {
            return Ok(());
        }
        let copy = copied(self.alloc, trace)?;
        self.list.push(copy)?;
        match self.texts.insert(text) {
            Ok(_) => Ok(()),
            Err(_) => {
                self.list.pop();
                Err(AllocError)
            }
        }
    }
}
