// Runs the number writers as compiled code: numbers of every length, into parts of up to one byte more than the longest. It prints a line for each: the
// bytes of the part after the call, # where nothing was written; a comma; and the answer. Its stored output is the second engine's (tests/stored).
#![tactic(auto)]

ghost use Rattle.std.specs.Prelude.{◌≤◌, length};

use decimal::{put_number, wide, write_field};
use std::io::{self, Write};
use std::time::Clock;

// Where the lines go, and room for one: a part of up to 21 bytes, a comma, at most ten digits and byte 10.
#[derive(Drop)]
struct Printer<'a, C, W> {
    clock: &'a C,
    to: &'a mut W,
    line: [u8; 33],
}

impl<C: Clock, W: Write> Printer<'_, C, W> {
    // Ends the line that a part of room bytes begins, and prints it.
    #[tactic(auto, using(decimal::proofs::Digits::digits_bound))]
    fn print_line(&mut self, room: usize, used: usize) -> io::Result<()>
        requires room_bound { room ≤ 21 }
        requires used_bound { used ≤ 21 }
    {
        self.line[room] = b',';
        let end = write_field(&mut self.line, room + 1, used as u32, b'\n');
        stdio::write_all(self.clock, self.to, &self.line[..end])
    }

    // What put writes into parts of up to most bytes.
    fn try_parts<F: Fn(&mut [u8]) -> usize>(&mut self, most: usize, put: F) -> io::Result<()>
        requires most_bound { most ≤ 21 }
        requires callable { F.IsAlwaysCallable put }
        requires within { (part : _) (n : _) (part' : _) → F.post put part n part' → n ≤ length part.now }
    {
        for room in 0..=most {
            self.line.fill(b'#');
            let used = put(&mut self.line[..room]);
            self.print_line(room, used)?;
        }
        Ok(())
    }

    // A number by both writers, where both take it.
    #[tactic(auto, using(decimal::proofs::Put::count_within))]
    fn try_both(&mut self, n: u64) -> io::Result<()> {
        self.try_parts(21, |part| wide::put_number(part, n))?;
        if let Ok(n) = u32::try_from(n) {
            self.try_parts(11, |part| put_number(part, n))?;
        }
        Ok(())
    }

    // A number, and what is left of it by tenths down to its first digit.
    fn try_tenths(&mut self, n: u64) -> io::Result<()> {
        let mut m = n;
        // No index: what is left by tenths.
        while 0 < m {
            self.try_both(m)?;
            m /= 10;
        }
        Ok(())
    }

    // Every count of digits: its largest and its smallest number, and others.
    fn try_all(&mut self) -> io::Result<()> {
        let firsts = [
            18_446_744_073_709_551_615,
            10_000_000_000_000_000_000,
            9_999_999_999_999_999_999,
            9_876_543_210_987_654_321,
            4_294_967_296,
            4_294_967_295,
        ];
        for n in firsts {
            self.try_tenths(n)?;
        }
        self.try_both(0)
    }
}

// A write that fails is told on standard error, and ends the program.
fn main(rt: HostRuntime) {
    let mut printer = Printer {
        clock: &rt,
        to: &mut rt.stdout(),
        line: [0; 33],
    };
    if let Err(e) = printer.try_all() {
        let _ = stdio::fail(&mut rt.stderr(), b"numbers: cannot write", e);
    }
}
