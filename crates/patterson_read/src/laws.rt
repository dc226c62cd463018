ghost use Rattle.std.specs.Prelude.{◌≡◌, [], Ok};
ghost use Rattle.rc_instance.specs.Project.{Project};
ghost use Rattle.rc_instance.specs.Calendar.{IsWithinLimits};
ghost use Rattle.patterson_read.specs.Rcp.{read_instance};
ghost use Rattle.rc_edge.specs.Written.{HasSmallDemands};
ghost use Rattle.patterson_read.specs.Written.{rcp_text};

/// What is written of an instance is read back as the same instance, without its calendar.
pub fn written_text_is_read_back()
    ensures { (project : Project) → IsWithinLimits project → HasSmallDemands project
        → read_instance (rcp_text project) ≡ Ok (record project { changes = [] }) }
{}
