// What a command besides `run` writes of its devices.
ghost use Rattle.std.specs.Prelude.{◌≡◌, ◌≤◌, ◌+◌, ◌∷◌, ◌++◌, [], codes, decimal, length};
ghost use Rattle.hex.specs.Hex.{encode_lower};
ghost use Rattle.line_proto.specs.Lines.{words_line};
ghost use Rattle.sound_scan.specs.Audited.{verdict_of};
ghost use Rattle.model_node.specs.Notes.{formatted_text, check_text, audit_text};

use arrayvec::ArrayString;
use device_check::DeviceCheck;
use itoa::Buffer;
use rec_format::Digest;
use sound_scan::Verdict;
use std::marker::Model;

// The most bytes that a report has.
const ROOM: usize = 118;

// Puts the hex digits of a digest behind the text, in lower case.
fn push_digest(text: &mut ArrayString<ROOM>, digest: &Digest)
    requires { length text.old.bytes ≤ 32 }
    ensures bytes { text.new.bytes ≡ text.old.bytes ++ encode_lower digest.now.0 }
    ensures size { length text.new.bytes ≤ length text.old.bytes + 40 }
{
    let mut digits = [0; 40];
    let Ok(()) = hex::encode_to_slice(&digest.0, &mut digits) else {
        unreachable!()
    };
    let Ok(digits) = str::from_utf8(&digits) else {
        unreachable!()
    };
    text.push_str(digits);
}

/// What a command writes of its devices, a line with its LF.
#[derive(Drop)]
pub struct Report {
    text: ArrayString<ROOM>,
}

impl Model for Report {
    ghost use Rattle.std.specs.Prelude.{List, ℕ};

    ghost Value = { List ℕ };

    ghost view = { λ r. r.text.bytes };
}

impl Report {
    /// The line that tells that so many devices were formatted.
    pub fn formatted(devices: u16) -> Self
        ensures { result ≡ formatted_text devices ++ 10 ∷ [] }
    {
        let mut digits = Buffer::new();
        let mut text = ArrayString::new();
        text.push_str("formatted ");
        text.push_str(digits.format(devices));
        text.push_str("\n");
        Report { text }
    }

    /// The line that tells what is on a device.
    pub fn checked(device: u16, check: &DeviceCheck) -> Self
        ensures { result ≡ check_text device check.now.opened check.now.copies check.now.records check.now.tombstones ++ 10 ∷ [] }
    {
        let mut digits = Buffer::new();
        let mut text = ArrayString::new();
        text.push_str("device ");
        text.push_str(digits.format(device));
        text.push_str(" open ");
        text.push_str(digits.format(check.opened));
        text.push_str(" copies ");
        text.push_str(digits.format(check.copies));
        text.push_str(" records ");
        text.push_str(digits.format(check.records));
        text.push_str(" tombstones ");
        text.push_str(digits.format(check.tombstones));
        text.push_str("\n");
        Report { text }
    }

    // The line that tells that a device is sound.
    fn sound(device: u16) -> Self
        ensures { result ≡ words_line (codes "device" ∷ decimal device ∷ codes "sound" ∷ []) ++ 10 ∷ [] }
    {
        let mut digits = Buffer::new();
        let mut text = ArrayString::new();
        text.push_str("device ");
        text.push_str(digits.format(device));
        text.push_str(" sound\n");
        Report { text }
    }

    // The line that tells that a rule, which has this word, fails at a digest of a device.
    fn unsound(device: u16, rule: &str, digest: &Digest) -> Self
        requires { length rule.now ≤ 8 }
        ensures { result ≡ words_line (codes "device" ∷ decimal device ∷ rule.now ∷ encode_lower digest.now.0 ∷ []) ++ 10 ∷ [] }
    {
        let mut digits = Buffer::new();
        let mut text = ArrayString::new();
        text.push_str("device ");
        text.push_str(digits.format(device));
        text.push_str(" ");
        text.push_str(rule);
        text.push_str(" ");
        push_digest(&mut text, digest);
        text.push_str("\n");
        Report { text }
    }

    /// The line that tells whether the image of a device is sound, and if it isn't, which rule fails at which digest.
    pub fn audited(device: u16, verdict: &Verdict) -> Self
        ensures { result ≡ audit_text device (verdict_of verdict.now) ++ 10 ∷ [] }
    {
        match verdict {
            Verdict::Sound => Report::sound(device),
            Verdict::Stray(digest) => Report::unsound(device, "stray", digest),
            Verdict::Twins(digest) => Report::unsound(device, "twins", digest),
            Verdict::Bare(digest) => Report::unsound(device, "bare", digest),
        }
    }

    /// The bytes of the line, with its LF.
    pub fn as_slice(&self) -> &[u8]
        ensures { result.now ≡ self.now }
    {
        self.text.as_str().as_bytes()
    }

    /// The line as text, with its LF.
    pub fn as_str(&self) -> &str
        ensures { result.now ≡ self.now }
    {
        self.text.as_str()
    }
}
