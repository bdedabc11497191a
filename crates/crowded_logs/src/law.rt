//! What is kept of a log tells its fault.

ghost use Rattle.std.specs.Prelude.{◌≡◌, ◌≢◌, ◌≤◌, ℕ, List, [], None, length};
ghost use Rattle.std.specs.Option.{option_or};
ghost use Rattle.vocabulary.specs.Prelude.{Lined, records_of};
ghost use Rattle.semantics.specs.Faults.{count_fault, declaration_fault, ended_fault, header_fault, records_fault};
ghost use Rattle.crowded_logs.specs.Crowded.{IsKeptAs};
ghost use Rattle.crowded_logs.specs.Noted.{frame_fault, frame_of};
ghost use Rattle.crowded_logs.specs.declared.frame.Frame.{Frame};

/// What is noted of the records of a log tells the fault of its frame.
pub fn frames_are_told()
    ensures { (lines : ℕ) (log : List Lined) → 1 ≤ length log → option_or (header_fault lines log)
        (option_or (ended_fault lines log) (count_fault log)) ≡ frame_fault lines (frame_of log) }
{}

/// What is kept of a crowded log tells its fault, and there is one. No record that is kept is a header where none may stand, if the frame has no fault.
pub fn crowded_logs_are_told()
    ensures fault { (lines : ℕ) (log kept : List Lined) (frame : Frame) → IsKeptAs log kept frame
        → declaration_fault lines log ≡ option_or (frame_fault lines frame) (records_fault (records_of kept) [] kept) }
    ensures some { (lines : ℕ) (log kept : List Lined) (frame : Frame) → IsKeptAs log kept frame
        → frame_fault lines frame ≡ None → records_fault (records_of kept) [] kept ≢ None }
    ensures header { (lines : ℕ) (log kept : List Lined) (frame : Frame) → IsKeptAs log kept frame
        → frame_fault lines frame ≡ None → header_fault 0 kept ≡ None }
{}
