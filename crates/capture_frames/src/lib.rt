// Request 2.3: captures, and the script that one becomes. The definitions are in specs/ and their theory in proofs/. No
// function here reads a capture: these tie the request's own sentences and its worked cases to contracts, so that the
// gate must prove them.
#![tactic(auto)]

ghost use Rattle.std.specs.Prelude.{◌≡◌, true, false};
ghost use Rattle.model.specs.Basics.{all_of, some_of};
ghost use Rattle.capture_frames.specs.Sentences.{CapturesSay};
ghost use Rattle.capture_frames.specs.Examples.{capture_examples, false_capture_examples, holds};

// The worked cases of the request, as one table with one theorem for all rows.
pub fn capture_examples_hold()
    ensures { all_of holds capture_examples ≡ true }
{}

// No row that says one thing otherwise holds, so that a row says what it seems to say.
pub fn false_capture_examples_fail()
    ensures { some_of holds false_capture_examples ≡ false }
{}

// What the request says of a capture and its script.
pub fn captures_become_scripts()
    ensures { CapturesSay }
{}
