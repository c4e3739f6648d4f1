//! Slices, vectors and references as readers and writers.
ghost use Rattle.std.specs.Prelude.{◌≡◌, ◌<◌, ◌≤◌, ◌+◌, vec_len, vec_capacity, Some, Ok, [], ◌++◌, min, length, take, drop, true, false, IfOk, IfErr, OnErr, IsOk, IsErr, ◌↔◌};
ghost use Rattle.multihash.specs.Fault.{IsOutOfMemoryFault};
ghost use Rattle.multihash.specs.Reading.{ReadLaws, ReadExactLaws};
ghost use Rattle.multihash.specs.Lemmas.{AdvancesPast-none, AdvancesPast-concatenated, AppendsAtEnd-none, AppendsAtEnd-concatenated};
ghost use Rattle.multihash.specs.Writing.{WriteLaws, WriteAllLaws, AdvancesPast, AppendsAtEnd};

use super::{Error, Read, Write};

// Copies as many bytes as both slices have, and returns their number.
#[inline(always)]
pub(super) fn copy_front(from: &[u8], to: &mut [u8]) -> usize
    ensures count { result ≡ min (length from.now) (length to.old) }
    ensures copied { to.new ≡ take result from.now ++ drop result to.old }
{
    let n = from.len().min(to.len());
    to[..n].copy_from_slice(&from[..n]);
    n
}

/// Reads from the front of the slice, and never fails. If fewer bytes remain than `read_exact` needs,
/// slice and buffer are unchanged.
impl Read for &[u8] {
    ghost rest = { λ s. Some s.now };

    ghost failures = { λ _. 0 };

    fn read(&mut self, buf: &mut [u8]) -> Result<usize, Error>
        ensures laws { ReadLaws (λ s. Some s.now) (λ _. 0)
            self.old self.new buf.old buf.new result }

        ensures smaller { result ≡ Ok (min (length self.old.now) (length buf.old)) }
    {
        let all: &[u8] = *self;
        let n = copy_front(all, buf);
        *self = &all[n..];
        Ok(n)
    }

    fn read_exact(&mut self, buf: &mut [u8]) -> Result<(), Error>
        ensures laws { ReadExactLaws (λ s. Some s.now) (λ _. 0)
            self.old self.new buf.old buf.new result }

        ensures too_short { IsErr result ↔ (length self.old.now < length buf.old) }
        ensures slice_kept { OnErr result (self.new.now ≡ self.old.now) }
        ensures buffer_kept { OnErr result (buf.new ≡ buf.old) }
    {
        let all: &[u8] = *self;
        if buf.len() > all.len() {
            return Err(Error::unexpected_eof());
        }
        let n = copy_front(all, buf);
        *self = &all[n..];
        Ok(())
    }
}

/// A borrowed reader reads as the reader does.
impl<R: Read> Read for &mut R {
    ghost rest = { λ r. R.rest r.now };

    ghost failures = { λ r. R.failures r.now };

    fn read(&mut self, buf: &mut [u8]) -> Result<usize, Error> {
        Read::read(&mut **self, buf)
    }

    fn read_exact(&mut self, buf: &mut [u8]) -> Result<(), Error> {
        Read::read_exact(&mut **self, buf)
    }
}

/// Writes to the front of the slice and advances past what was written. If not all bytes fit,
/// `write_all` fills the slice and returns an error, [`Error::is_write_zero`].
impl Write for &mut [u8] {
    const ALLOCATES: bool = false;

    ghost allocates = { false };

    ghost appended = { λ old bytes new. AdvancesPast old.now bytes new.now };

    ghost full = { λ s. s.now ≡ [] };

    ghost failures = { λ _. 0 };

    ghost appends_nothing = { λ w. AdvancesPast-none w.now };

    ghost appends_concatenated = { λ a b c x y first second.
        AdvancesPast-concatenated a.now b.now c.now x y first second };

    fn write(&mut self, buf: &[u8]) -> Result<usize, Error>
        ensures laws { WriteLaws (λ old bytes new. AdvancesPast old.now bytes new.now)
            (λ s. s.now ≡ []) (λ _. 0) false self.old buf.now self.new result }

        ensures smaller { result ≡ Ok (min (length buf.now) (length self.old.now)) }
    {
        let all = std::mem::take(self);
        let n = copy_front(buf, all);
        *self = &mut all[n..];
        Ok(n)
    }

    #[inline(always)]
    fn write_all(&mut self, buf: &[u8]) -> Result<(), Error>
        ensures laws { WriteAllLaws (λ old bytes new. AdvancesPast old.now bytes new.now)
            (λ s. s.now ≡ []) (λ _. 0) false self.old buf.now self.new result }

        ensures fits { IsOk result ↔ (length buf.now ≤ length self.old.now) }
        ensures filled { OnErr result (self.new.now ≡ []) }
    {
        if self.write(buf)? == buf.len() {
            Ok(())
        } else {
            Err(Error::write_zero())
        }
    }
}

/// Appends to the vector. If out of memory, the vector is unchanged.
impl Write for Vec<u8> {
    const ALLOCATES: bool = true;

    ghost allocates = { true };

    ghost appended = { λ old bytes new. AppendsAtEnd old.items bytes new.items };

    ghost full = { λ _. ⊥ };

    ghost failures = { λ _. 0 };

    ghost appends_nothing = { λ w. AppendsAtEnd-none w.items };

    ghost appends_concatenated = { λ a b c x y first second.
        AppendsAtEnd-concatenated a.items b.items c.items x y first second };

    fn write(&mut self, buf: &[u8]) -> Result<usize, Error>
        ensures laws { WriteLaws (λ old bytes new. AppendsAtEnd old.items bytes new.items)
            (λ _. ⊥) (λ _. 0) true self.old buf.now self.new result }

        ensures whole { IfOk result (λ n. n ≡ length buf.now) }
        ensures room { vec_len self.old + length buf.now ≤ vec_capacity self.old → IsOk result }
        ensures unchanged { OnErr result (self.new.items ≡ self.old.items) }
        ensures kind { IfErr result IsOutOfMemoryFault }
    {
        match self.extend_from_slice(buf) {
            Ok(()) => Ok(buf.len()),
            Err(_) => Err(Error::out_of_memory()),
        }
    }

    fn write_all(&mut self, buf: &[u8]) -> Result<(), Error>
        ensures laws { WriteAllLaws (λ old bytes new. AppendsAtEnd old.items bytes new.items)
            (λ _. ⊥) (λ _. 0) true self.old buf.now self.new result }

        ensures room { vec_len self.old + length buf.now ≤ vec_capacity self.old → IsOk result }
        ensures unchanged { OnErr result (self.new.items ≡ self.old.items) }
        ensures kind { IfErr result IsOutOfMemoryFault }
    {
        match self.extend_from_slice(buf) {
            Ok(()) => Ok(()),
            Err(_) => Err(Error::out_of_memory()),
        }
    }
}

/// For a borrowed writer `write` is the writer's own, and `write_all` is the default.
impl<W: Write> Write for &mut W {
    const ALLOCATES: bool = W::ALLOCATES;

    ghost allocates = { W.allocates };

    ghost appended = { λ old bytes new. W.appended old.now bytes new.now };

    ghost full = { λ w. W.full w.now };

    ghost failures = { λ w. W.failures w.now };

    ghost appends_nothing = { λ w. W.appends_nothing w.now };

    ghost appends_concatenated = { λ a b c x y first second.
        W.appends_concatenated a.now b.now c.now x y first second };

    fn write(&mut self, buf: &[u8]) -> Result<usize, Error> {
        Write::write(&mut **self, buf)
    }
}
