ghost use Rattle.std.specs.Prelude.{◌≡◌, ◌+◌, ◌%◌, ◌==◌, if◌then◌else◌, ◌<◌, ◌≤◌, [], ◌∷◌, ◌++◌, Ok, Some, IfOk, IfSome, IfNone, length, min, take, drop, decimal, codes};
ghost use Rattle.arrayvec.specs.ArrayString.{array_string_len};
ghost use Rattle.outside.specs.Generated.{tag_line, firewall_line, chain_line, desk_section, packet_line, generated};

use crate::source::{Failed, Source};
use arrayvec::ArrayString;
use itoa::Buffer;
use std::marker::Model;

/// How many lanes a round has.
const LANES: u32 = 4;

/// How many packets a lane has.
const PACKETS: u32 = 64;

/// A text that is made at once. The longest one is a section of commands.
type Text = ArrayString<128>;

// A text of its own.
fn text_of(bytes: &str) -> Text
    requires { length bytes.now ≤ 128 }
    ensures { result.bytes ≡ bytes.now }
{
    let mut text = Text::new();
    text.push_str(bytes);
    text
}

// Puts a space and a number behind a text.
fn put_number(text: &mut Text, number: u32)
    requires { array_string_len text.old + 11 ≤ 128 }
    ensures bytes { text.new.bytes ≡ text.old.bytes ++ 32 ∷ decimal number }
    ensures len { array_string_len text.new ≤ array_string_len text.old + 11 }
{
    let mut digits = Buffer::new();
    text.push_str(" ");
    text.push_str(digits.format(number));
}

// Puts the command that tags a cookie behind a text.
fn put_tag(text: &mut Text, round: u32)
    requires { array_string_len text.old + 42 ≤ 128 }
    ensures bytes { text.new.bytes ≡ text.old.bytes ++ tag_line round }
    ensures len { array_string_len text.new ≤ array_string_len text.old + 42 }
{
    text.push_str("tag 1000");
    put_number(text, 1 + round % 16);
    put_number(text, 10_000 + round % 8);
    put_number(text, 1 + round % 4);
    text.push_str("\n");
}

// Puts the command that allows a uid behind a text.
fn put_rule(text: &mut Text, round: u32)
    requires { array_string_len text.old + 28 ≤ 128 }
    ensures bytes { text.new.bytes ≡ text.old.bytes ++ firewall_line round }
    ensures len { array_string_len text.new ≤ array_string_len text.old + 28 }
{
    text.push_str("fw dozable");
    put_number(text, 10_000 + round % 8);
    text.push_str(" allow\n");
}

// Whether a round turns its chain on or off.
fn switch(round: u32) -> &'static str
    ensures word { result.now ≡ (if round % 2 == 0 then codes "on" else codes "off") }
    ensures len { length result.now ≤ 3 }
{
    if round % 2 == 0 { "on" } else { "off" }
}

// Puts the command that turns a chain on or off behind a text.
fn put_chain(text: &mut Text, round: u32)
    requires { array_string_len text.old + 18 ≤ 128 }
    ensures bytes { text.new.bytes ≡ text.old.bytes ++ chain_line round }
    ensures len { array_string_len text.new ≤ array_string_len text.old + 18 }
{
    text.push_str("chain dozable ");
    text.push_str(switch(round));
    text.push_str("\n");
}

// A round up to its first lane.
fn round_front(round: u32) -> Text
    ensures { result.bytes ≡ desk_section round ++ codes "section\n" }
{
    let mut text = text_of("section\ndesk\n");
    put_tag(&mut text, round);
    put_rule(&mut text, round);
    put_chain(&mut text, round);
    text.push_str("collect\nsection\n");
    text
}

// Whether a packet comes in or goes out.
fn direction(packet: u32) -> &'static str
    ensures word { result.now ≡ (if packet % 2 == 0 then codes "in" else codes "out") }
    ensures len { length result.now ≤ 3 }
{
    if packet % 2 == 0 { "in" } else { "out" }
}

// The line of a packet.
fn packet_text(lane: u32, packet: u32) -> Text
    requires { lane < 4 }
    ensures { result.bytes ≡ packet_line lane packet }
{
    let mut text = text_of(direction(packet));
    put_number(&mut text, 10_000 + packet % 8);
    put_number(&mut text, 1 + packet % 16);
    put_number(&mut text, 1 + lane);
    text.push_str(" 4");
    put_number(&mut text, 100 + 500 * lane);
    text.push_str(" -\n");
    text
}

// What the script has still to give. It is made text by text.
#[derive(Drop)]
struct Pieces {
    rounds: u32,
    // How many rounds have begun, how many lanes of the last of them, and how many packets of the
    // last of these lanes were given. Where no lane has begun, all packets were given.
    begun: u32,
    lanes: u32,
    packets: u32,
}

impl Model for Pieces {
    ghost use Rattle.std.specs.Prelude.{ℕ, List, ◌++◌, ◌-◌, ◌<◌, ◌≤◌};
    ghost use Rattle.outside.specs.Generated.{for_each, packet_line, lane_text, round_text};

    ghost Value = { List ℕ };

    ghost view = { λ p. for_each p.packets 64 (packet_line (p.lanes - 1))
        ++ for_each p.lanes 4 lane_text ++ for_each p.begun p.rounds round_text };

    ghost invariant = { λ p. (p.packets ≤ 64) × (p.lanes ≤ 4) × (p.begun ≤ p.rounds)
        × (p.packets < 64 → 0 < p.lanes) };
}

impl Pieces {
    // The next text, if the script goes on.
    fn next(&mut self) -> Option<Text>
        ensures text { IfSome result (λ t. self.old ≡ t.bytes ++ self.new) }
        ensures bytes { IfSome result (λ t. 0 < length t.bytes) }
        ensures end { IfNone result ((self.old ≡ []) × (self.new ≡ [])) }
    {
        if self.packets < PACKETS {
            let packet = self.packets;
            self.packets = packet + 1;
            return Some(packet_text(self.lanes - 1, packet));
        }
        if self.lanes < LANES {
            self.lanes += 1;
            self.packets = 0;
            return Some(text_of("lane\n"));
        }
        if self.begun < self.rounds {
            let round = self.begun;
            self.begun = round + 1;
            self.lanes = 0;
            return Some(round_front(round));
        }
        None
    }
}

/// The generated script as a source. It takes no memory and never fails.
///
/// A round of the script is a section with four commands and a section with four lanes of 64 packets
/// each.
#[derive(Drop)]
pub struct GenSource {
    // The text under way, of which the bytes before `at` were given.
    text: Text,
    at: usize,
    behind: Pieces,
}

impl Model for GenSource {
    ghost use Rattle.std.specs.Prelude.{ℕ, List, ◌++◌, drop, length, ◌≤◌};

    ghost Value = { List ℕ };

    ghost view = { λ s. drop s.at s.text.bytes ++ s.behind };

    ghost invariant = { λ s. s.at ≤ length s.text.bytes };
}

impl GenSource {
    /// Makes a source of the script of so many rounds, from 1 to 1,000.
    pub fn new(n: u32) -> GenSource
        requires { (1 ≤ n) × (n ≤ 1000) }
        ensures { result ≡ generated n }
    {
        GenSource {
            text: text_of("netacct 1\n"),
            at: 0,
            behind: Pieces {
                rounds: n,
                begun: 0,
                lanes: LANES,
                packets: PACKETS,
            },
        }
    }

    // Gives bytes of the text under way, or of the next one where that one is given.
    fn give(&mut self, into: &mut [u8]) -> usize
        ensures bound { result ≤ length into.old }
        ensures bytes { self.old ≡ take result into.new ++ self.new }
        ensures kept { drop result into.new ≡ drop result into.old }
        ensures end { result ≡ 0 → 0 < length into.old → self.new ≡ [] }
    {
        if self.at == self.text.len() {
            match self.behind.next() {
                Some(text) => {
                    self.text = text;
                    self.at = 0;
                }
                None => return 0,
            }
        }
        let rest = &self.text.as_str().as_bytes()[self.at..];
        let n = rest.len().min(into.len());
        into[..n].copy_from_slice(&rest[..n]);
        self.at += n;
        n
    }
}

impl Source for GenSource {
    ghost left = { λ s. Some s };

    ghost faults = { λ _. 0 };

    /// Fills the buffer, or gives all that is left.
    fn read(&mut self, into: &mut [u8]) -> Result<usize, Failed>
        ensures moved { result ≡ Ok (min (length into.old) (length self.old)) }
        ensures taken { IfOk result (λ n. self.new ≡ drop n self.old) }
        ensures given { IfOk result (λ n. into.new ≡ take n self.old ++ drop n into.old) }
    {
        let mut n = 0;
        while n < into.len() {
            let given = self.give(&mut into[n..]);
            if given == 0 {
                return Ok(n);
            }
            n += given;
        }
        Ok(n)
    }
}

#[cfg(test)]
mod tests {
    use super::*;
    use crate::read_all;
    use std::test::Fail;

    const FRONT: &[u8] =
        b"netacct 1\nsection\ndesk\ntag 1000 1 10000 1\nfw dozable 10000 allow\nchain dozable on\ncollect\nsection\nlane\nin 10000 1 1 4 100 -\nout 10001 2 1 4 100 -\n";

    // The number of bytes is that of a plain Rust program that prints the same script.
    #[test]
    fn seven_rounds_have_as_many_bytes_as_another_program_prints(
        rt: HostRuntime,
    ) -> Result<(), Fail> {
        let bytes = read_all(rt.alloc(), &mut GenSource::new(7), 100_000)?;
        assert_eq!(rt; bytes.len(), 40_977);
        assert!(rt; bytes.starts_with(FRONT));
        Ok(())
    }
}
