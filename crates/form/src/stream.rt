//! Values one after another, up to the end of the input.
ghost use Rattle.std.specs.Prelude.{◌≡◌, ◌≢◌, ◌<◌, ◌⊎◌, ◌++◌, length, ℕ, List, [], Some, IfOk, IfErr, IfSome, OnOk, IsTrue, MatchResult, IsSomeAnd, IsErrAnd};
ghost use Rattle.std.specs.Io.KnownBytes.{IsAtEnd};
ghost use Rattle.multihash.specs.Bytes.{IsStrictPrefix};
ghost use Rattle.multihash.specs.Consuming.{ConsumesSome};
ghost use Rattle.multihash.specs.Streams.{AreParts};
ghost use Rattle.multihash.specs.Reading.{CountsReaderFailures, NoOtherError, EndsInNone};
ghost use Rattle.multihash.specs.Fault.{IsOwnFault};
ghost use Rattle.multihash.specs.Refusal.{IsOutOfMemory, IsReaderError};
ghost use Rattle.form.specs.Rejecting.{ReadStops};
ghost use Rattle.form.specs.Stream.{rest_from, AppendsUpTo, AppendsThenStops, AppendsSame};
ghost use Rattle.form.specs.FormError.{IsFailed, IsTruncated};

use crate::{Form, FormError, read};
use multihash::no_std_io::{Error, Read};
use std::alloc::Global;

/// A reader that reports the end of its input, for which it may have to read one byte ahead.
#[derive(Drop)]
pub struct Stream<R> {
    /// The reader.
    pub inner: R,
    /// The byte that was read ahead.
    pub ahead: Option<u8>,
}

impl<R: Read> Stream<R> {
    /// Returns a reader of the same input.
    pub fn new(inner: R) -> Self
        ensures rest { rest_from result.ahead (R.rest result.inner) ≡ R.rest inner }
        ensures failures { R.failures result.inner ≡ R.failures inner }
    {
        Stream { inner, ahead: None }
    }

    /// Returns whether the input has ended. Nothing is consumed.
    ///
    /// # Errors
    ///
    /// The reader's own error.
    pub fn is_at_end(&mut self) -> Result<bool, Error>
        ensures kept { rest_from self.new.ahead (R.rest self.new.inner)
            ≡ rest_from self.old.ahead (R.rest self.old.inner) }
        ensures end { IfOk result (λ is. IsTrue is → IsAtEnd (rest_from self.old.ahead (R.rest self.old.inner))) }
        ensures always { IfOk result (λ is.
            rest_from self.old.ahead (R.rest self.old.inner) ≡ Some [] → IsTrue is) }
        ensures faults { CountsReaderFailures IsOwnFault NoOtherError
            (R.failures self.old.inner) (R.failures self.new.inner) result }
    {
        if self.ahead.is_some() {
            return Ok(false);
        }
        let mut byte = [0; 1];
        if self.inner.read(&mut byte)? == 0 {
            return Ok(true);
        }
        self.ahead = Some(byte[0]);
        Ok(false)
    }

    /// Reads the value whose encoding comes next, as [`Form::read`] does, but returns `None` instead of an error if the
    /// input ended before the encoding.
    ///
    /// # Errors
    ///
    /// Those of [`Form::read`], except that for an input that ended before the encoding.
    pub fn read_next<T: Form>(&mut self, alloc: Global) -> Result<Option<T>, FormError>
        ensures ok { IfOk result (λ next. IfSome next (λ x. ConsumesSome (T.is_form x)
            (rest_from self.old.ahead (R.rest self.old.inner)) (rest_from self.new.ahead (R.rest self.new.inner)))) }
        ensures end { EndsInNone (rest_from self.old.ahead (R.rest self.old.inner))
            (rest_from self.new.ahead (R.rest self.new.inner))
            (R.failures self.old.inner) (R.failures self.new.inner) result }
        ensures faults { CountsReaderFailures (IsFailed IsReaderError) T.rejects_with
            (R.failures self.old.inner) (R.failures self.new.inner) result }
        ensures err { IfErr result (λ e. ReadStops T.is_form T.rejects
            (R.failures self.old.inner) (R.failures self.new.inner) e
            (rest_from self.old.ahead (R.rest self.old.inner))
            (rest_from self.new.ahead (R.rest self.new.inner))) }

        // A value that comes next is found, and what follows it is left.
        ensures found { (x : T) (bytes more : List ℕ) → T.is_form x bytes →
            rest_from self.old.ahead (R.rest self.old.inner) ≡ Some (bytes ++ more) →
            R.failures self.new.inner ≡ R.failures self.old.inner →
            MatchResult result (λ next. IsSomeAnd next (λ y. T.same y x)
            × (rest_from self.new.ahead (R.rest self.new.inner) ≡ Some more)) (IsFailed IsOutOfMemory) }

        // If the input ends within a value, the error says so.
        ensures truncated { (x : T) (bytes part : List ℕ) → T.is_form x bytes → IsStrictPrefix part bytes → part ≢ [] →
            rest_from self.old.ahead (R.rest self.old.inner) ≡ Some part →
            R.failures self.new.inner ≡ R.failures self.old.inner →
            IsErrAnd result (λ e. IsFailed IsTruncated e ⊎ IsFailed IsOutOfMemory e) }
    {
        if self.is_at_end()? {
            return Ok(None);
        }
        let value = read::<T, Stream<R>>(alloc, self)?;
        Ok(Some(value))
    }

    /// Reads values, one after another, and appends them to `list`: `n` values, or all that come before the end of the
    /// input if these are fewer.
    ///
    /// # Errors
    ///
    /// Those of [`Stream::read_next`], and out of memory. The values before the error have been appended.
    pub fn read_up_to<T: Form + Drop>(
        &mut self,
        alloc: Global,
        n: usize,
        list: &mut Vec<T>,
    ) -> Result<(), FormError>
        ensures ok { OnOk result (AppendsUpTo T.is_form n list.old.items list.new.items
            (rest_from self.old.ahead (R.rest self.old.inner))
            (rest_from self.new.ahead (R.rest self.new.inner))) }
        ensures err { IfErr result (AppendsThenStops T.is_form T.rejects n list.old.items list.new.items
            (R.failures self.old.inner) (R.failures self.new.inner)
            (rest_from self.old.ahead (R.rest self.old.inner))
            (rest_from self.new.ahead (R.rest self.new.inner))) }
        ensures faults { CountsReaderFailures (IsFailed IsReaderError)
            (λ e. T.rejects_with e ⊎ IsFailed IsOutOfMemory e)
            (R.failures self.old.inner) (R.failures self.new.inner) result }

        // `n` values that come next, or fewer that are the rest of the input, are found, and what follows them is left.
        ensures found { (xs : List T) (bytes more : List ℕ) → AreParts T.is_form xs bytes →
            rest_from self.old.ahead (R.rest self.old.inner) ≡ Some (bytes ++ more) →
            (length xs ≡ n) ⊎ ((length xs < n) × (more ≡ [])) →
            R.failures self.new.inner ≡ R.failures self.old.inner →
            MatchResult result (λ _. AppendsSame T.same xs list.old.items list.new.items
            × (rest_from self.new.ahead (R.rest self.new.inner) ≡ Some more)) (IsFailed IsOutOfMemory) }
    {
        for _ in 0..n {
            let value = match self.read_next::<T>(alloc)? {
                Some(value) => value,
                None => return Ok(()),
            };
            list.push(value)?;
        }
        Ok(())
    }
}

impl<R: Read> Read for Stream<R> {
    ghost rest = { λ s. rest_from s.ahead (R.rest s.inner) };

    ghost failures = { λ s. R.failures s.inner };

    fn read(&mut self, buf: &mut [u8]) -> Result<usize, Error> {
        if buf.is_empty() {
            return Ok(0);
        }
        let byte = match self.ahead {
            Some(byte) => byte,
            None => return self.inner.read(buf),
        };
        buf[0] = byte;
        self.ahead = None;
        Ok(1)
    }
}
