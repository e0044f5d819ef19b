//! What the definitions of this crate mean, as theorems that call nothing. In a law a number is any number, so each says that
//! CSeq is below 2^32, as it is in every `RequestText`.
ghost use Rattle.std.specs.Prelude.{◌≡◌, ◌<◌, ◌^◌, ◌∷◌, ◌++◌, [], ℕ, List, None, Some, codes, map};
ghost use Rattle.std.specs.List.{AllByRecursion, flat_map};
ghost use Rattle.std.specs.Option.{option_copied};
ghost use denote.Ref.{Bor};
ghost use Rattle.rtsp_message.specs.declared.unit.Unit.TheVariants.{Message};
ghost use Rattle.rtsp_message.specs.Stream.{IsMessage, Reads, Waits};
ghost use Rattle.request_text.specs.declared.asked.Asked.TheVariants.{Options, Setup};
ghost use Rattle.request_text.specs.declared.request_text.RequestText.{RequestText};
ghost use Rattle.request_text.specs.Faults.{IsSendable};
ghost use Rattle.request_text.specs.Sending.{CanSend, Sent, sent_text, sent_unit};
ghost use Rattle.request_text.specs.Texts.{message_text, request_of};

/// The text of a request that can be sent is a message (RFC 2326, 4.4 and 6), and a reader reads it as that request: its
/// method, its URI, its number, its fields in their order and its body, and nothing is left over.
pub fn messages()
    ensures message { (request : RequestText) → request.number < 2 ^ 32 → IsSendable request
        → IsMessage (message_text (request_of request)) (request_of request) }
    ensures reads { (request : RequestText) → request.number < 2 ^ 32 → IsSendable request
        → Reads (message_text (request_of request)) (Message (request_of request) ∷ []) (Waits []) }
{}

/// Requests and frames that are sent one after another are read as just these, in their order.
pub fn streams()
    ensures { (items : List Sent) → AllByRecursion CanSend items
        → Reads (flat_map sent_text items) (map sent_unit items) (Waits []) }
{}

/// A text is that of one request: of two requests of different numbers the texts differ.
pub fn one_request()
    ensures request { (a b : RequestText) → a.number < 2 ^ 32 → b.number < 2 ^ 32 → IsSendable a → IsSendable b
        → message_text (request_of a) ≡ message_text (request_of b) → request_of a ≡ request_of b }
    ensures number { (a b : RequestText) → a.number < 2 ^ 32 → b.number < 2 ^ 32 → IsSendable a → IsSendable b
        → message_text (request_of a) ≡ message_text (request_of b) → a.number ≡ b.number }
{}

/// Worked texts.
pub fn rows()
    ensures options { (request : RequestText) → request.asked ≡ Options → request.uri.now ≡ codes "rtsp://192.0.2.7/cam" → request.number ≡ 1
        → option_copied request.session ≡ None → option_copied request.authorization ≡ None
        → message_text (request_of request) ≡ codes "OPTIONS rtsp://192.0.2.7/cam RTSP/1.0\r\nCSeq: 1\r\nUser-Agent: Vasklun/0.1\r\n\r\n" }
    ensures setup { (request : RequestText) (transport session : Bor (List ℕ)) → request.asked ≡ Setup transport → transport.now ≡ codes "RTP/AVP/TCP;unicast;interleaved=0-1"
        → request.uri.now ≡ codes "rtsp://192.0.2.7/cam/trackID=0" → request.number ≡ 302 → request.session ≡ Some session → session.now ≡ codes "47112344"
        → option_copied request.authorization ≡ None
        → message_text (request_of request) ≡ codes "SETUP rtsp://192.0.2.7/cam/trackID=0 RTSP/1.0\r\nCSeq: 302\r\nUser-Agent: Vasklun/0.1\r\nTransport: RTP/AVP/TCP;unicast;interleaved=0-1\r\nSession: 47112344\r\n\r\n" }
{}
