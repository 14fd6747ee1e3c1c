//! Laws of how the program ends. Each law is the contract of a function that does nothing.

ghost use Rattle.std.specs.Prelude.{◌≡◌, ◌≢◌, ◌⊎◌, ◌↔◌, ◌++◌, ℕ, Bool, true, List};
ghost use Rattle.std.specs.Io.KnownBytes.{Keeps};
ghost use Rattle.std.specs.Process.{exit_status};
ghost use Rattle.std.specs.declared.process.ExitCode.{ExitCode};
ghost use Rattle.smx_config.specs.declared.verdict.Verdict.{Verdict};
ghost use Rattle.smx_config.specs.declared.verdict.Verdict.TheVariants.{Legal};
ghost use Rattle.smx_run.specs.declared.product.Product.{Product};
ghost use Rattle.smx_filters.specs.ExplainText.{judging};
ghost use Rattle.smx_filters.specs.Filters.{GivesFor};
ghost use Rattle.smx_filters.specs.Products.{making};
ghost use Rattle.smx_filters.specs.RunText.{running};
ghost use Rattle.smx_live.specs.LiveText.{IsOver};
ghost use Rattle.muxsim.specs.Ends.{Devices, EndsJob, Writes};
ghost use Rattle.smx_command_line.specs.declared.jobs.Job.{Job as AnyJob};
ghost use Rattle.smx_command_line.specs.declared.jobs.Job.TheVariants.{Check, Live, Make, Run};

/// For an input and an output in memory: the status 0 means that the job was done, and that its whole output was
/// written and flushed. For a check, with or without `--explain`, the status 0 also means that the transcript is legal,
/// and the status 4 means that the verdict is not `legal`. For a live session, the status 0 also means that the session
/// has ended.
pub fn a_status_tells_what_was_done()
    ensures run { (workers : ℕ) (fronts explain : Bool) (d : Devices) (code : ExitCode) (input output : List ℕ)
        → EndsJob (Run workers fronts explain) d code → Writes d input output → exit_status code ≡ 0
        → (d.flushed ≡ true) × GivesFor (running fronts workers) input tt output }
    ensures made { (product : Product) (explain : Bool) (d : Devices) (code : ExitCode) (input output : List ℕ)
        → EndsJob (Make product explain) d code → Writes d input output → exit_status code ≡ 0
        → (d.flushed ≡ true) × GivesFor (making product) input tt output }
    ensures live { (explain : Bool) (d : Devices) (code : ExitCode) (input output : List ℕ)
        → EndsJob (Live explain) d code → Writes d input output → exit_status code ≡ 0
        → (d.flushed ≡ true) × (read rest : List ℕ) × (input ≡ read ++ rest) × IsOver explain read d.ended output }
    ensures legal { (explain : Bool) (d : Devices) (code : ExitCode) (input output : List ℕ)
        → EndsJob (Check explain) d code → Writes d input output → exit_status code ≡ 0
        → (d.flushed ≡ true) × GivesFor (judging explain) input Legal output }
    ensures not_legal { (explain : Bool) (d : Devices) (code : ExitCode) (input output : List ℕ)
        → EndsJob (Check explain) d code → Writes d input output → exit_status code ≡ 4
        → (d.flushed ≡ true) × (v : Verdict) × (v ≢ Legal) × GivesFor (judging explain) input v output }
{}

/// The status is 5 exactly if the reader or the writer failed. If the status is 1 or 3, and the job is not a live
/// session, nothing was written. No job has the status 2, and only a check has the status 4.
pub fn a_status_tells_what_failed()
    ensures failed { (job : AnyJob) (d : Devices) (code : ExitCode) → EndsJob job d code
        → (exit_status code ≡ 5) ↔ ((d.read_failures ≡ 1) ⊎ (d.write_failures ≡ 1)) }
    ensures unwritten { (job : AnyJob) (d : Devices) (code : ExitCode)
        → ((explain : Bool) → job ≢ Live explain) → EndsJob job d code
        → (exit_status code ≡ 1) ⊎ (exit_status code ≡ 3) → Keeps d.before d.after }
    ensures no_words { (job : AnyJob) (d : Devices) (code : ExitCode) → EndsJob job d code
        → exit_status code ≡ 2 → ⊥ }
    ensures no_verdict { (job : AnyJob) (d : Devices) (code : ExitCode)
        → ((explain : Bool) → job ≢ Check explain) → EndsJob job d code → exit_status code ≡ 4 → ⊥ }
{}
