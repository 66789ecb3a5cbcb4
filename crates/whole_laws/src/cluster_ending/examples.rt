//! Worked runs. Each is the contract of a function that does nothing.
ghost use Rattle.std.specs.Prelude.{◌≡◌, false, List, [], ◌∷◌};
ghost use Rattle.cluster_laws.specs.cluster_core.Recovering.{going_on};
ghost use Rattle.cluster_laws.specs.cluster_core.Settings.{IsSetting};
ghost use Rattle.cluster_laws.specs.cluster_model.Events.{IsTrace};
ghost use Rattle.cluster_laws.specs.cluster_model.Leading.{HasSeenTheEnd};
ghost use Rattle.cluster_laws.specs.cluster_model.TwoWaves.{ShowTheEnd, no_counts, total_received, total_sent};
ghost use Rattle.whole_laws.specs.cluster_ending.FourWaves.{after_four_waves, after_lone_run, after_one_wave, after_three_waves, after_two_waves, early_answers, late_answers, lone_events, on_one_machine, started_from};
ghost use Rattle.whole_laws.specs.cluster_whole.Whole.{AreColoured};

/// Vertices 1 and 2 with an edge, on two machines, and labels of components. Both vertices are
/// updated, and word of the second update stays in its outbox. Both machines are idle and answer
/// two waves: each time 6 messages were sent and 5 received, and the end isn't shown. The word
/// comes, and vertex 1 is updated again. The third wave tells 9 and 9, and doesn't show the end, as
/// the one before told less. The fourth tells the same again, and shows it.
pub fn waves_of_a_pair()
    ensures first { (after_one_wave.coordinator.rounds.counting.waves ≡
        record { before = no_counts 2; wave = early_answers })
        × (ShowTheEnd after_one_wave.coordinator.rounds.counting.waves → ⊥) }
    ensures second { (after_two_waves.coordinator.rounds.counting.waves ≡
        record { before = early_answers; wave = early_answers })
        × (total_sent early_answers ≡ 6) × (total_received early_answers ≡ 5)
        × (ShowTheEnd after_two_waves.coordinator.rounds.counting.waves → ⊥) }
    ensures third { (after_three_waves.coordinator.rounds.counting.waves ≡
        record { before = early_answers; wave = late_answers })
        × (total_sent late_answers ≡ 9) × (total_received late_answers ≡ 9)
        × (ShowTheEnd after_three_waves.coordinator.rounds.counting.waves → ⊥) }
    ensures fourth { (after_four_waves.coordinator.rounds.counting.waves ≡
        record { before = late_answers; wave = late_answers })
        × HasSeenTheEnd after_four_waves.coordinator }
{}

/// One vertex on one machine: its update, and two waves that show the end. Each event may happen,
/// so that the premises of what is claimed of courses are met.
pub fn a_run_to_its_end()
    ensures setting { IsSetting on_one_machine × AreColoured on_one_machine on_one_machine.engine }
    ensures trace { IsTrace (going_on on_one_machine on_one_machine.start 0)
        (started_from on_one_machine) lone_events after_lone_run }
    ensures end { HasSeenTheEnd after_lone_run.coordinator }
    ensures none_begun { after_lone_run.coordinator.begun ≡ 0 }
{}
