// What holds of a board over whole runs.
ghost use Rattle.subchannel.specs.Runs.{LiveOnce, LiveWhereKept, NumbersStay, FailureStays};

/// The laws of a board, whatever calls are made of it and in whichever order: no address ever has two live
/// subchannels, and each address of two lists that are kept has one. A number is that of one subchannel for good;
/// a subchannel in TRANSIENT_FAILURE leaves it only by its clock or where its address is in no list.
pub fn laws_of_runs()
    ensures once { LiveOnce }
    ensures kept { LiveWhereKept }
    ensures numbers { NumbersStay }
    ensures failure { FailureStays }
{}
