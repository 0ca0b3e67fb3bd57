//! Laws of words, answers and endings, over the definitions alone.
ghost use Rattle.std.specs.Prelude.{◌≡◌, ◌⊎◌, ℕ, List, Option, Some, None, true};
ghost use Rattle.search_pool.specs.declared.finding.Finding.{Finding};
ghost use Rattle.knot_words.specs.Words.{Asks, AsksNothing};
ghost use Rattle.knot_ports.specs.Status.{IsOfDefinedAnswer, IsOfAnswer};
ghost use Rattle.certificate_check.specs.Decision.{IsDecision};
ghost use Rattle.knot_words.specs.Limits.{limit_of, part_for};
ghost use Rattle.knot_jobs.specs.Answer.{leaves_no_choice, IsNotOver, IsInShape, IsBeyondColumns, Answers};
ghost use Rattle.knot_ports.specs.Change.{Change, Failed};
ghost use Rattle.knot_jobs.specs.Call.{Call, with_workers};
ghost use Rattle.knot_jobs.specs.Ending.{IsDue, EndsAnyCall};
ghost use Rattle.knot_jobs.specs.ReplyTruth.{IsAcceptedByCheck};
ghost use Rattle.knot_words.specs.declared.job.Job.TheVariants as job;
ghost use Rattle.knot_words.specs.declared.job.PlainJob.TheVariants as plain;
ghost use Rattle.reply_text.specs.declared.reply.PlainReply.{PlainReply};
ghost use Rattle.search_jobs.specs.Reply.{without_search};
ghost use Rattle.check_job.specs.Ending.{IsCheckReplyDue};

use knot_ports::Status;
use knot_words::Asked;
use search_jobs::Reply;

/// A job that leaves no choice, which is every one but `decide`, `simplify`, `least`, `numbers` and `grid`, has one answer to each input: there
/// is one, which keeps no search, and no other. Those five may have several.
pub fn an_input_has_one_answer()
    ensures some { (asked : Asked) (bytes : List ℕ) → leaves_no_choice asked.job ≡ true
        → (reply : Reply) × ((reply.kept ≡ None) × Answers asked bytes reply) }
    ensures one { (asked : Asked) (bytes : List ℕ) (reply other : Reply) → leaves_no_choice asked.job ≡ true
        → Answers asked bytes reply
        → Answers asked bytes other
        → reply ≡ other }
{}

/// No answer to an input has the status of refused words, of a fault or of memory that ran out.
pub fn an_answer_has_its_own_status()
    ensures { (asked : Asked) (bytes : List ℕ) (reply : Reply) → Answers asked bytes reply → IsOfAnswer reply.status }
{}

/// Where a contract knows the bytes of the source, the words and these bytes decide the reply of a call of a job other than `decide`, `simplify`,
/// `least`, `numbers` and `grid`, but for a counted fault and memory that ran out, however many workers search in it.
pub fn the_words_and_the_input_decide()
    ensures { (input : List ℕ) (call again : Call) (asked : Asked) (reply other : Reply)
        → call.words ≡ again.words
        → call.source.before ≡ Some input
        → again.source.before ≡ Some input
        → Asks call.words asked
        → leaves_no_choice asked.job ≡ true
        → IsDue call reply
        → IsDue again other
        → reply ≡ other }
{}

/// The job `check` and the separate checker reply the same to the same input, where contracts know the bytes of both sources: what is due to a call
/// that asks for `check` is what is due to a call of the checker.
pub fn the_checker_replies_as_check()
    ensures { (input : List ℕ) (call : Call) (source : Change) (asked : Asked) (reply : Reply) (other : PlainReply)
        → call.source.before ≡ Some input
        → source.before ≡ Some input
        → Asks call.words asked
        → asked.job ≡ job.Plain plain.Check
        → IsDue call reply
        → IsCheckReplyDue source other
        → reply ≡ without_search other }
{}

/// Where no count of faults rose, a call ends with the status of an answer that the job has to its input, and keeps the search
/// after it, or with the usage line where the words ask for nothing; or memory ran out.
pub fn a_call_without_faults_ends_with_what_is_due()
    ensures answer { (call : Call) (asked : Asked) (bytes : List ℕ) (s : Status) (kept : Option Finding) → EndsAnyCall call s kept
        → Asks call.words asked
        → call.source.before ≡ Some bytes
        → (Failed call.source → ⊥)
        → (Failed call.sink → ⊥)
        → ((text : List ℕ) × Answers (with_workers call.searching asked) (part_for asked.job bytes) (record { status = s; text = text; kept = kept }))
        ⊎ (s ≡ Status.OutOfMemory) }
    ensures usage { (call : Call) (s : Status) (kept : Option Finding) → EndsAnyCall call s kept
        → AsksNothing call.words
        → (Failed call.sink → ⊥)
        → (s ≡ Status.Usage) ⊎ (s ≡ Status.OutOfMemory) }
{}

/// An input of the job's shape within its limit has the job's defined answer: `Done`, `Unknown` or `Rejected`; but `grid` may say that
/// a diagram of the code takes too many columns.
pub fn an_input_in_shape_has_a_defined_answer()
    ensures { (asked : Asked) (bytes : List ℕ) (reply : Reply)
        → IsNotOver (limit_of asked.job) bytes
        → IsInShape asked bytes
        → Answers asked bytes reply
        → IsOfDefinedAnswer reply.status ⊎ IsBeyondColumns asked.job reply }
{}

/// A decision on an input, by a verdict or by numbers, whoever found it, is accepted by the job `check` after the input, where both are within
/// its limit of bytes.
pub fn a_decision_is_accepted_by_check()
    ensures { (bytes text : List ℕ) → IsDecision bytes text → IsAcceptedByCheck bytes text }
{}
