ghost use Rattle.std.specs.Prelude.{◌≡◌, ◌<◌, ◌^◌, ℕ, List, None, All, FitsSigned, length, map};
ghost use Rattle.std.specs.Int.{w64};
ghost use Rattle.schema_numbers.specs.Numbers.{Numbers};
ghost use Rattle.schema_numbers.specs.Valid.{IsValid};
ghost use Rattle.proto_schema.specs.declared.schema.MessageKind.TheVariants as message;
ghost use Rattle.proto_schema.specs.Legal.{first_fault};
ghost use Rattle.gribi_messages.specs.declared.asks.GetRequest.{GetRequest};
ghost use Rattle.gribi_messages.specs.declared.asks.FlushRequest.{FlushRequest};
ghost use Rattle.gribi_messages.specs.declared.asks.FlushResponse.{FlushResponse};
ghost use Rattle.aft_entries.specs.declared.operation.Row.{Row};
ghost use Rattle.gribi_messages.specs.declared.request.ModifyRequest.{ModifyRequest};
ghost use Rattle.gribi_messages.specs.declared.response.ModifyResponse.{ModifyResponse};
ghost use Rattle.gribi_messages.specs.Request.{modify_request};
ghost use Rattle.gribi_messages.specs.Rows.{get_response, rows_bytes, row_as_read};
ghost use Rattle.gribi_messages.specs.RequestEncoding.{request_bytes};
ghost use Rattle.gribi_messages.specs.Response.{response_bytes, modify_response};
ghost use Rattle.gribi_messages.specs.EncodableMessages.{IsEncodableResponse, IsEncodableRequest, IsEncodableRow, IsEncodableGet, IsEncodableFlush};
ghost use Rattle.gribi_messages.specs.GetAndFlush.{get_request, get_bytes, flush_request, flush_bytes, flush_response, flush_response_bytes};

/// The answer of a Flush call that was written is read again, under every valid numbering.
pub fn flush_response_is_read_again()
    ensures { (n : Numbers) (r : FlushResponse) → IsValid n → FitsSigned w64 r.timestamp → r.result < 2 ^ 64 →
        (first_fault n message.FlushResponse (flush_response_bytes n r) ≡ None)
        × (flush_response n (flush_response_bytes n r) ≡ r) }
{}

/// The answer of a Modify call that was written is read again, under every valid numbering.
pub fn modify_response_is_read_again()
    ensures { (n : Numbers) (r : ModifyResponse) → IsValid n → IsEncodableResponse r →
        (first_fault n message.ModifyResponse (response_bytes n r) ≡ None)
        × (modify_response n (response_bytes n r) ≡ r) }
{}

/// The request of a Get call that was written is read again, under every valid numbering.
pub fn get_request_is_read_again()
    ensures { (n : Numbers) (r : GetRequest) → IsValid n → IsEncodableGet r →
        (first_fault n message.GetRequest (get_bytes n r) ≡ None)
        × (get_request n (get_bytes n r) ≡ r) }
{}

/// The request of a Flush call that was written is read again, under every valid numbering.
pub fn flush_request_is_read_again()
    ensures { (n : Numbers) (r : FlushRequest) → IsValid n → IsEncodableFlush r →
        (first_fault n message.FlushRequest (flush_bytes n r) ≡ None)
        × (flush_request n (flush_bytes n r) ≡ r) }
{}

/// The request of a Modify call that was written is read again, under every valid numbering.
pub fn modify_request_is_read_again()
    ensures { (n : Numbers) (r : ModifyRequest) → IsValid n → IsEncodableRequest r → length (request_bytes n r) < 2 ^ 64 →
        (first_fault n message.ModifyRequest (request_bytes n r) ≡ None)
        × (modify_request n (request_bytes n r) ≡ r) }
{}

/// A message of an answer to a Get that was written is read again, under every valid numbering: each row with its
/// instance's name, its entry in the printed forms, and its statuses.
pub fn get_response_is_read_again()
    ensures { (n : Numbers) (names : List (List ℕ)) (rows : List Row) → IsValid n → All (IsEncodableRow names) rows →
        length (rows_bytes n names rows) < 2 ^ 64 →
        (first_fault n message.GetResponse (rows_bytes n names rows) ≡ None)
        × (get_response n (rows_bytes n names rows) ≡ record { rows = map (row_as_read n names) rows }) }
{}
