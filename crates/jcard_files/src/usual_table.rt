//! The platform table of cards for which none is named.
ghost use Rattle.std.specs.Prelude.{◌≡◌, ℕ, List, MatchResult, option_map};
ghost use Rattle.std.specs.Borrow.{Bor};
ghost use Rattle.jc_platform.specs.Packing.{IsKept};
ghost use Rattle.jcard_files.specs.Effects.{ReadsFiles};
ghost use Rattle.jcard_files.specs.UsualTable.{IsNoPlatform, IsPlatform};

use crate::disk::Disk;
use crate::fault::Fault;
use crate::reading::text_of;
use jc_platform::packing::kept;
use std::alloc::{AllocError, Global};

/// What an image keeps of its platform table: the text in the file with this name, up to one byte more than one can have; without a name
/// the usual one, packed.
pub fn platform_of<'n, D: Disk>(disk: &mut D, table: Option<&'n str>) -> Result<Vec<u8>, Fault<'n>>
    ensures { ReadsFiles D.does disk.old disk.new result
        (λ kept. IsPlatform (option_map (λ (name : Bor (List ℕ)). name.now) table.entry) kept.items)
        (IsNoPlatform (option_map (λ (name : Bor (List ℕ)). name.now) table.entry)) }
{
    match table {
        Some(name) => text_of(disk, name),
        None => usual_platform(disk.alloc()),
    }
}

fn usual_platform<'n>(alloc: Global) -> Result<Vec<u8>, Fault<'n>>
    ensures { MatchResult result (λ kept. IsKept USUAL_TABLE.now kept.items)
        (λ fault. fault ≡ Fault.NoMemory) }
{
    match Vec::from_slice(alloc, USUAL_TABLE.as_bytes()) {
        Ok(text) => kept_of(alloc, text),
        Err(AllocError) => Err(Fault::NoMemory),
    }
}

fn kept_of<'n>(alloc: Global, text: Vec<u8>) -> Result<Vec<u8>, Fault<'n>>
    ensures { MatchResult result (λ kept. IsKept text.items kept.items)
        (λ fault. fault ≡ Fault.NoMemory) }
{
    match kept(alloc, text) {
        Ok(kept) => Ok(kept),
        Err(AllocError) => Err(Fault::NoMemory),
    }
}

/// The text of `examples/extended.table`, 8,718 bytes: each name that can stand, with a token.
pub const USUAL_TABLE: &str = "\
extended
package A0000000620001 1 0
class 0 Object
static 0 <init>
virtual 0 equals
class 1 Throwable
static 0 <init>
class 2 Exception
static 0 <init>
class 3 RuntimeException
static 0 <init>
class 4 IndexOutOfBoundsException
static 0 <init>
class 5 ArithmeticException
static 0 <init>
class 6 ArrayIndexOutOfBoundsException
static 0 <init>
class 7 ArrayStoreException
static 0 <init>
class 8 ClassCastException
static 0 <init>
class 9 NegativeArraySizeException
static 0 <init>
class 10 NullPointerException
static 0 <init>
class 11 SecurityException
static 0 <init>
package A0000000620101 1 0
class 0 Shareable
class 1 PIN
interface 0 check
interface 1 getTriesRemaining
interface 2 isValidated
interface 3 reset
class 2 Applet
static 0 <init>
virtual 1 deselect
virtual 2 getShareableInterfaceObject
virtual 3 register
virtual 4 registerBytes
virtual 5 select
virtual 6 selectingApplet
virtual 7 process
virtual 8 reSelectingApplet
class 3 APDU
virtual 1 getBuffer
virtual 2 receiveBytes
virtual 3 sendBytes
virtual 4 setIncomingAndReceive
virtual 5 setOutgoing
virtual 6 setOutgoingAndSend
virtual 7 setOutgoingLength
virtual 8 getIncomingLength
virtual 9 getOffsetCdata
virtual 10 sendBytesLong
virtual 11 getCurrentState
static 0 getProtocol
virtual 12 getNAD
static 1 getCLAChannel
static 2 getInBlockSize
static 3 getOutBlockSize
virtual 13 isISOInterindustryCLA
virtual 14 isCommandChainingCLA
virtual 15 isSecureMessagingCLA
virtual 16 isValidCLA
virtual 17 setOutgoingNoChaining
static 4 waitExtension
static 5 getCurrentAPDU
static 6 getCurrentAPDUBuffer
class 4 AID
static 0 <init>
virtual 0 equals
virtual 1 equalsBytes
virtual 2 getBytes
virtual 3 RIDEquals
virtual 4 partialEquals
virtual 5 getPartialBytes
class 5 JCSystem
static 0 abortTransaction
static 1 beginTransaction
static 2 commitTransaction
static 3 getAID
static 4 getAppletShareableInterfaceObject
static 5 getMaxCommitCapacity
static 6 getPreviousContextAID
static 7 getTransactionDepth
static 8 getUnusedCommitCapacity
static 9 isTransient
static 10 lookupAID
static 11 makeTransientBooleanArray
static 12 makeTransientByteArray
static 13 makeTransientObjectArray
static 14 makeTransientShortArray
static 15 getVersion
static 16 getAvailableMemory
static 17 getAvailableMemoryShorts
static 18 requestObjectDeletion
static 19 isObjectDeletionSupported
static 20 isAppletActive
static 21 getAssignedChannel
class 6 Util
static 0 arrayCompare
static 1 arrayCopy
static 2 getShort
static 3 makeShort
static 4 setShort
static 5 arrayFill
static 6 arrayCopyNonAtomic
static 7 arrayFillNonAtomic
class 7 OwnerPIN
static 0 <init>
virtual 1 check
virtual 2 getTriesRemaining
virtual 3 isValidated
virtual 4 reset
virtual 5 resetAndUnblock
virtual 6 update
virtual 7 getValidatedFlag
virtual 8 setValidatedFlag
class 8 CardException
static 0 <init>
static 1 throwIt
virtual 1 getReason
virtual 2 setReason
class 9 CardRuntimeException
static 0 <init>
static 1 throwIt
virtual 1 getReason
virtual 2 setReason
class 10 ISOException
static 0 <init>
static 1 throwIt
class 11 PINException
static 0 <init>
static 1 throwIt
class 12 SystemException
static 0 <init>
static 1 throwIt
class 13 TransactionException
static 0 <init>
static 1 throwIt
class 14 APDUException
static 0 <init>
static 1 throwIt
class 15 UserException
static 0 <init>
static 1 throwIt
static 2 <init>WithoutReason
class 16 ISO7816
class 17 MultiSelectable
interface 0 select
interface 1 deselect
class 18 AppletEvent
interface 0 uninstall
package A0000000620209 1 0
class 0 ExtendedLength
package A0000000620102 1 0
class 0 CryptoException
static 0 <init>
static 1 throwIt
class 1 MessageDigest
static 0 getInstance
static 1 getInitializedMessageDigestInstance
virtual 1 getAlgorithm
virtual 2 getLength
virtual 3 update
virtual 4 doFinal
virtual 5 reset
class 2 Checksum
static 0 getInstance
virtual 1 getAlgorithm
virtual 2 init
virtual 3 update
virtual 4 doFinal
class 3 RandomData
static 0 getInstance
virtual 1 generateData
virtual 2 nextBytes
virtual 3 setSeed
virtual 4 getAlgorithm
class 4 InitializedMessageDigest
virtual 6 setInitialDigest
class 5 Key
interface 0 clearKey
interface 1 getSize
interface 2 getType
interface 3 isInitialized
class 6 SecretKey
interface 0 clearKey
interface 1 getSize
interface 2 getType
interface 3 isInitialized
class 7 DESKey
interface 0 clearKey
interface 1 getSize
interface 2 getType
interface 3 isInitialized
interface 4 getKey
interface 5 setKey
class 8 AESKey
interface 0 clearKey
interface 1 getSize
interface 2 getType
interface 3 isInitialized
interface 4 getKey
interface 5 setKey
class 9 HMACKey
interface 0 clearKey
interface 1 getSize
interface 2 getType
interface 3 isInitialized
interface 4 getKey
interface 5 setKey
class 10 KeyBuilder
static 0 buildKey
class 11 KeyObject
virtual 1 clearKey
virtual 2 getSize
virtual 3 getType
virtual 4 isInitialized
virtual 5 getKey
virtual 6 setKey
class 12 DESKeyObject
class 13 AESKeyObject
class 14 HMACKeyObject
virtual 7 setKey
class 15 Signature
static 0 getInstance
static 1 getInstanceOfDigestCipherAndPadding
virtual 1 init
virtual 2 initWithVector
virtual 3 update
virtual 4 sign
virtual 5 verify
virtual 6 getAlgorithm
virtual 7 getMessageDigestAlgorithm
virtual 8 getCipherAlgorithm
virtual 9 getPaddingAlgorithm
virtual 10 getLength
class 16 PrivateKey
interface 0 clearKey
interface 1 getSize
interface 2 getType
interface 3 isInitialized
class 17 PublicKey
interface 0 clearKey
interface 1 getSize
interface 2 getType
interface 3 isInitialized
class 18 RSAPublicKey
interface 0 clearKey
interface 1 getSize
interface 2 getType
interface 3 isInitialized
interface 4 setModulus
interface 5 setExponent
interface 6 getModulus
interface 7 getExponent
class 19 RSAPrivateKey
interface 0 clearKey
interface 1 getSize
interface 2 getType
interface 3 isInitialized
interface 4 setModulus
interface 5 setExponent
interface 6 getModulus
interface 7 getExponent
class 20 RSAPrivateCrtKey
interface 0 clearKey
interface 1 getSize
interface 2 getType
interface 3 isInitialized
interface 4 setP
interface 5 setQ
interface 6 setDP1
interface 7 setDQ1
interface 8 setPQ
interface 9 getP
interface 10 getQ
interface 11 getDP1
interface 12 getDQ1
interface 13 getPQ
class 21 ECKey
interface 0 setFieldFP
interface 1 setFieldF2M
interface 2 setFieldF2MOfThree
interface 3 setA
interface 4 setB
interface 5 setG
interface 6 setR
interface 7 setK
interface 8 getField
interface 9 getA
interface 10 getB
interface 11 getG
interface 12 getR
interface 13 getK
interface 14 copyDomainParametersFrom
class 22 ECPublicKey
interface 0 clearKey
interface 1 getSize
interface 2 getType
interface 3 isInitialized
interface 4 setFieldFP
interface 5 setFieldF2M
interface 6 setFieldF2MOfThree
interface 7 setA
interface 8 setB
interface 9 setG
interface 10 setR
interface 11 setK
interface 12 getField
interface 13 getA
interface 14 getB
interface 15 getG
interface 16 getR
interface 17 getK
interface 18 copyDomainParametersFrom
interface 19 setW
interface 20 getW
class 23 ECPrivateKey
interface 0 clearKey
interface 1 getSize
interface 2 getType
interface 3 isInitialized
interface 4 setFieldFP
interface 5 setFieldF2M
interface 6 setFieldF2MOfThree
interface 7 setA
interface 8 setB
interface 9 setG
interface 10 setR
interface 11 setK
interface 12 getField
interface 13 getA
interface 14 getB
interface 15 getG
interface 16 getR
interface 17 getK
interface 18 copyDomainParametersFrom
interface 19 setS
interface 20 getS
class 24 KeyPair
static 0 <init>
static 1 <init>OfKeys
virtual 1 genKeyPair
virtual 2 getPublic
virtual 3 getPrivate
class 25 KeyAgreement
static 0 getInstance
virtual 1 init
virtual 2 generateSecret
virtual 3 getAlgorithm
class 26 RSAKeyObject
virtual 7 setModulus
virtual 8 setExponent
virtual 9 getModulus
virtual 10 getExponent
class 27 RSAPublicKeyObject
class 28 RSAPrivateKeyObject
class 29 RSAPrivateCrtKeyObject
virtual 7 setP
virtual 8 setQ
virtual 9 setDP1
virtual 10 setDQ1
virtual 11 setPQ
virtual 12 getP
virtual 13 getQ
virtual 14 getDP1
virtual 15 getDQ1
virtual 16 getPQ
class 30 ECKeyObject
virtual 7 setFieldFP
virtual 8 setFieldF2M
virtual 9 setFieldF2MOfThree
virtual 10 setA
virtual 11 setB
virtual 12 setG
virtual 13 setR
virtual 14 setK
virtual 15 getField
virtual 16 getA
virtual 17 getB
virtual 18 getG
virtual 19 getR
virtual 20 getK
virtual 21 copyDomainParametersFrom
class 31 ECPublicKeyObject
virtual 22 setW
virtual 23 getW
class 32 ECPrivateKeyObject
virtual 22 setS
virtual 23 getS
package A0000000620201 1 0
class 0 Cipher
static 0 getInstance
static 1 getInstanceOfCipherAndPadding
virtual 1 init
virtual 2 initWithVector
virtual 3 update
virtual 4 doFinal
virtual 5 getAlgorithm
virtual 6 getCipherAlgorithm
virtual 7 getPaddingAlgorithm
";
