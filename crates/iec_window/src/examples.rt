//! Worked examples, computed with the definitions that the contracts cite.
ghost use Rattle.std.specs.Prelude.{◌≡◌, ◌∷◌, [], true, false, map, Some, Ok, Err};
ghost use Rattle.iec_window.specs.Sequence.{send_number, is_right_send, is_right_receive};
ghost use Rattle.iec_window.specs.Timers.{t1_passed, owes_ack, due_at};
ghost use Rattle.iec_window.specs.Steps.{counts_at_start, counts_after_s, answer_to_i, counts_after_i};
ghost use Rattle.iec_window.specs.Steps.{counts_after_sending_i, counts_after_sending_test};
ghost use Rattle.iec_window.specs.History.{SentI, GotI, GotS, legal, waiting_at};
ghost use Rattle.iec_window.specs.Examples.{usual, sender_counts, receiver_counts};
ghost use Rattle.iec_window.specs.declared.fault.WindowFault.TheVariants.{WrongSend, WrongReceive};
ghost use Rattle.iec_window.specs.declared.due.Due.TheVariants as due;

/// N(S): after 32,768 I formats the next one has the number 0 again.
pub fn send_numbers()
    ensures wraps { map (λ ns. is_right_send ns (receiver_counts 32768 1 0)) (32767 ∷ 0 ∷ 1 ∷ 32768 ∷ [])
        ≡ false ∷ true ∷ false ∷ false ∷ [] }
    ensures before { map (λ ns. is_right_send ns (receiver_counts 32767 1 0)) (32766 ∷ 32767 ∷ 0 ∷ [])
        ≡ false ∷ true ∷ false ∷ [] }
    ensures written { send_number (sender_counts 65534 (0 ∷ 0 ∷ 0 ∷ [])) ≡ 1 }
{}

/// N(R): right from the count that is acknowledged to the count that was sent.
pub fn receive_numbers()
    ensures edges { map (λ nr. is_right_receive nr (sender_counts 5 (0 ∷ 0 ∷ 0 ∷ []))) (4 ∷ 5 ∷ 6 ∷ 8 ∷ 9 ∷ [])
        ≡ false ∷ true ∷ true ∷ true ∷ false ∷ [] }
    ensures wraps { map (λ nr. is_right_receive nr (sender_counts 32766 (0 ∷ 0 ∷ 0 ∷ [])))
        (32765 ∷ 32766 ∷ 32767 ∷ 0 ∷ 1 ∷ 2 ∷ 32768 ∷ [])
        ≡ false ∷ true ∷ true ∷ true ∷ true ∷ false ∷ false ∷ [] }
    ensures acknowledges { counts_after_s 0 50 (sender_counts 32766 (10 ∷ 20 ∷ 30 ∷ []))
        ≡ record (sender_counts 32768 (30 ∷ [])) { last_heard = 50 } }
    ensures order { answer_to_i 1 1 (counts_at_start usual 0) ≡ Err WrongSend }
    ensures second { answer_to_i 0 1 (counts_at_start usual 0) ≡ Err WrongReceive }
    ensures first { counts_after_i 0 0 7 (counts_at_start usual 0)
        ≡ record (receiver_counts 1 1 7) { last_heard = 7 } }
{}

/// t1, t2 and t3 one millisecond before their time and at it, and w.
pub fn timers()
    // The oldest I format counts, and the TESTFR act.
    ensures t1 { map (λ moment. t1_passed moment (sender_counts 0 (1000 ∷ 2000 ∷ []))) (15999 ∷ 16000 ∷ [])
        ≡ false ∷ true ∷ [] }
    ensures t1_closes { map (λ moment. due_at moment (sender_counts 0 (1000 ∷ 2000 ∷ []))) (15999 ∷ 16000 ∷ [])
        ≡ due.None ∷ due.Close ∷ [] }
    ensures t1_of_test { map (λ moment. t1_passed moment
        (counts_after_sending_test 4000 (counts_after_sending_test 500 (sender_counts 0 (1000 ∷ [])))))
        (15499 ∷ 15500 ∷ []) ≡ false ∷ true ∷ [] }
    ensures t2 { map (λ moment. owes_ack moment (receiver_counts 3 1 10)) (9 ∷ 10009 ∷ 10010 ∷ [])
        ≡ false ∷ false ∷ true ∷ [] }
    // The oldest of those that aren't acknowledged counts.
    ensures t2_of_the_oldest { map (λ moment. owes_ack moment
        (counts_after_i 1 0 9000 (counts_after_i 0 0 10 (counts_at_start usual 0))))
        (10009 ∷ 10010 ∷ []) ≡ false ∷ true ∷ [] }
    ensures w { map (λ owed. owes_ack 10 (receiver_counts 30 owed 10)) (7 ∷ 8 ∷ 9 ∷ []) ≡ false ∷ true ∷ true ∷ [] }
    ensures sent { owes_ack 99999 (counts_after_sending_i 20 (receiver_counts 30 8 10)) ≡ false }
    ensures t3 { map (λ moment. due_at moment (counts_at_start usual 100)) (20099 ∷ 20100 ∷ [])
        ≡ due.None ∷ due.Test ∷ [] }
    // Also while I formats wait whose t1 hasn't passed.
    ensures t3_while_waiting { due_at 20100 (record (sender_counts 0 (20000 ∷ [])) { last_heard = 100 }) ≡ due.Test }
    ensures ends { map (λ moment. due_at moment (counts_after_sending_test 20100 (counts_at_start usual 100)))
        (20100 ∷ 35099 ∷ 35100 ∷ []) ≡ due.None ∷ due.None ∷ due.Close ∷ [] }
{}

/// What is legal of a connection, the newest frame first.
pub fn connections()
    // N(R) 0 acknowledges fewer than 1 before it, and 3 more than were sent.
    ensures receive { legal usual (GotS 0 60 ∷ GotS 3 50 ∷ GotS 1 40 ∷ SentI 20 ∷ SentI 10 ∷ [])
        ≡ GotS 1 40 ∷ SentI 20 ∷ SentI 10 ∷ [] }
    ensures waiting { waiting_at (GotS 1 40 ∷ SentI 20 ∷ SentI 10 ∷ []) ≡ 20 ∷ [] }
    ensures send { legal usual (GotI 2 0 60 ∷ GotI 1 0 50 ∷ GotI 1 0 40 ∷ GotI 0 0 30 ∷ [])
        ≡ GotI 2 0 60 ∷ GotI 1 0 40 ∷ GotI 0 0 30 ∷ [] }
    // Room for one comes with an acknowledgement.
    ensures k { legal (record usual { k = 1 }) (SentI 40 ∷ GotS 1 30 ∷ SentI 20 ∷ SentI 10 ∷ [])
        ≡ SentI 40 ∷ GotS 1 30 ∷ SentI 10 ∷ [] }
{}
