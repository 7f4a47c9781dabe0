//! The laws about logs and lists of their records. Each function has an empty body: its contract is the law.

ghost use Rattle.lf_logs.specs.Mixtures.{LogAfterLogIsAMixture, MixturesHaveTheirLogs};

/// The records of logs, log after log, are a mixture that keeps each log's order, where each names its
/// log; and from any such mixture `split` gives the logs back.
pub fn mixtures_have_their_logs()
    ensures log_after_log { LogAfterLogIsAMixture }
    ensures again { MixturesHaveTheirLogs }
{}
