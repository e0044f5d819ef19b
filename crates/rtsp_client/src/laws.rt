//! What holds of the order in which a client asks.
ghost use Rattle.std.specs.Prelude.{◌≡◌, ◌∷◌, ℕ, List, None, true, IsSome};
ghost use Rattle.std.specs.List.{Contains};
ghost use Rattle.rtsp_client.specs.declared.asked.Asked.{Asked};
ghost use Rattle.rtsp_client.specs.declared.asked.Asked.TheVariants.{Play as playing, Record as recording, SetUp as setting_up};
ghost use Rattle.rtsp_client.specs.declared.asked.Side.{Side};
ghost use Rattle.rtsp_client.specs.declared.asked.Side.TheVariants.{Target};
ghost use Rattle.rtsp_client.specs.declared.requests.Reply.TheVariants.{Of};
ghost use Rattle.rtsp_client.specs.declared.step.Step.TheVariants.{Play};
ghost use Rattle.rtsp_client.specs.declared.verdict.Verdict.TheVariants.{GoesOn};
ghost use Rattle.rtsp_client.specs.Clients.{State};
ghost use Rattle.rtsp_client.specs.Histories.{Answer, HasCome, is_described, is_done};
ghost use Rattle.rtsp_client.specs.Mapped.{AreGiven};
ghost use Rattle.rtsp_client.specs.Runs.{AllBelow, Event, Goes, HasGone, sends, takes, is_described as description_comes};
ghost use Rattle.rtsp_client.specs.Steps.{IsSetUp, Place, is_recording};
ghost use Rattle.rtsp_client.specs.TargetCourse.{AreInOrder, Asking, HasAsked, IsReadyFor};

/// Whatever came of the requests: PLAY is asked for only if RECORD's answer was the last one, and a track of the source only after the
/// description came.
pub fn order()
    ensures play { (answers : List Answer) (place : Place) → HasCome answers place → place.step ≡ Play → Contains answers (is_done recording) }
    ensures set_up { (answers : List Answer) (place : Place) → HasCome answers place → IsSetUp place.step
        → (tracks : ℕ) × Contains answers (is_described tracks) }
{}

/// Whatever happens to a client: each number that it sends is above all earlier ones on that connection, so that none is used twice; it
/// sends PLAY only after RECORD's success came from the target, and SETUP of a track of the source only after the description
/// came; while the target records, each track that is set up has channels at both sides; and its end stays, and
/// it sends nothing after it.
pub fn runs()
    ensures numbers { (side : Side) (asked : Asked) (number : ℕ) (before : List Event) (state : State)
        → HasGone (sends side asked number ∷ before) state → AllBelow side before number }
    ensures play { (before : List Event) (side : Side) (number : ℕ) (state : State)
        → HasGone (sends side playing number ∷ before) state → Contains before (takes Target (Of recording GoesOn)) }
    ensures set_up { (before : List Event) (side : Side) (number : ℕ) (state : State)
        → HasGone (sends side setting_up number ∷ before) state → (tracks : ℕ) × Contains before (description_comes tracks) }
    ensures mapped { (events : List Event) (state : State) → HasGone events state → is_recording state.place.step ≡ true
        → AreGiven state.passage.map.source state.place.kept × AreGiven state.passage.map.target state.place.kept }
    ensures end_stays { (event : Event) (old new : State) → Goes event old new → IsSome old.end → new.end ≡ old.end }
    ensures nothing_after { (side : Side) (asked : Asked) (number : ℕ) (old new : State) → Goes (sends side asked number) old new → old.end ≡ None }
{}

/// Whatever happens to a client: what it asks its target for is in this order: ANNOUNCE; SETUP of each track that is set up at the source;
/// RECORD; any number of OPTIONS; TEARDOWN, which is the last request and can come after the first SETUP. ANNOUNCE and the first SETUP have
/// no Session header, and each later request has the identifier of the target's session.
///
/// SETUP and RECORD are sent only after success of the request before, OPTIONS only after success of RECORD, and TEARDOWN only after success
/// of a SETUP.
pub fn target_course()
    ensures asked { (events : List Event) (state : State) → HasGone events state → (askings : List Asking) × HasAsked events askings state }
    ensures gone { (events : List Event) (askings : List Asking) (state : State) → HasAsked events askings state → HasGone events state }
    ensures order { (events : List Event) (askings : List Asking) (state : State) → HasAsked events askings state → AreInOrder askings state }
    ensures ready { (asked : Asked) (number : ℕ) (before : List Event) (state : State)
        → HasGone (sends Target asked number ∷ before) state → IsReadyFor asked before }
{}
