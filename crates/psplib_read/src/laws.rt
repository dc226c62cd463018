ghost use Rattle.std.specs.Prelude.{◌≡◌, ℕ, List, [], Ok, length};
ghost use Rattle.rc_instance.specs.Project.{Project};
ghost use Rattle.rc_instance.specs.Calendar.{IsWithinLimits};
ghost use Rattle.rc_edge.specs.Written.{HasSmallDemands};
ghost use Rattle.psplib_read.specs.Left.{whole};
ghost use Rattle.psplib_read.specs.Lines.{lines_of};
ghost use Rattle.psplib_read.specs.Preamble.{head_due};
ghost use Rattle.psplib_read.specs.Topics.{head_by_topic};
ghost use Rattle.psplib_read.specs.Sm.{read_instance};
ghost use Rattle.psplib_read.specs.Written.{sm_text};

/// What is written of an instance is read back as the same instance, without its calendar.
pub fn written_text_is_read_back()
    ensures { (project : Project) → IsWithinLimits project → HasSmallDemands project
        → read_instance (sm_text project) ≡ Ok (record project { changes = [] }) }
{}

/// What a preamble tells line by line is what it tells topic by topic: of each topic the first line
/// counts, and of all faults the one of least offset.
pub fn preamble_tells_topics()
    ensures { (bytes : List ℕ)
        → head_due (whole bytes) ≡ head_by_topic (length bytes) (lines_of bytes) }
{}
